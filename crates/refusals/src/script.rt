//! A script: its lines are played one after the other, each once more where it lacked memory.
ghost use Rattle.timeline.specs.Sizes.{AreSizes};

use crate::input::first_line;
use crate::show::Show;
use input_log::{Log, read_log};
use r3k_asm::assemble;
use r3k_image::{Image, read_image, write_image};
use refusal::Fault;
use std::alloc::Global;
use wb_text::{Reply, parse_line, reply_text};
use workbench::{RunFault, Session, Sink, fault_line};

/// Plays a script on the session of an image or a source and a log. At the start and after each line it shows what the session
/// holds.
pub fn play<const PAGES: u32, const SPAN: u32, W: Sink>(
    alloc: Global,
    boot: &[u8],
    log: &[u8],
    script: &[u8],
    show: &mut Show<W>,
)
    requires sizes { AreSizes PAGES SPAN }
{
    for _try in 0..2 {
        match begun::<PAGES, SPAN>(alloc, boot, log) {
            Ok(mut session) => return play_lines(alloc, &mut session, script, show),
            Err(_) => show.line(&[b"start", b"memory"]),
        }
    }
}

// Plays the lines of a script on a session.
fn play_lines<const PAGES: u32, const SPAN: u32, W: Sink>(
    alloc: Global,
    session: &mut Session<PAGES, SPAN>,
    script: &[u8],
    show: &mut Show<W>,
) {
    let _ = play_line(alloc, session, b"", show);
    let mut rest = script;
    for _line in 0..script.len() {
        let Some((line, after)) = first_line(rest) else {
            return;
        };
        rest = after;
        if play_line(alloc, session, line, show) {
            let _ = play_line(alloc, session, line, show);
        }
    }
}

/// The session of an image or a source and a log, where no bytes are the empty one.
pub fn begun<const PAGES: u32, const SPAN: u32>(
    alloc: Global,
    boot: &[u8],
    log: &[u8],
) -> Result<Box<Session<PAGES, SPAN>>, RunFault>
    requires sizes { AreSizes PAGES SPAN }
{
    let (image, log) = (image_of(alloc, boot)?, log_of(alloc, log)?);
    boxed(alloc, Session::new(alloc, image, log)?)
}

/// Boxes a large value. Functions that own it are then checked in less time, as its end is proved in `Box` alone.
pub fn boxed<T: Drop>(alloc: Global, value: T) -> Result<Box<T>, RunFault> {
    Box::new(alloc, value).map_err(|_| RunFault::Memory)
}

fn image_of(alloc: Global, boot: &[u8]) -> Result<Image, RunFault> {
    if boot.starts_with(b"R3KIMG1\n") {
        return Ok(read_image(alloc, boot)?);
    }
    Ok(assemble(alloc, boot)?)
}

fn log_of(alloc: Global, log: &[u8]) -> Result<Log, RunFault> {
    if log.is_empty() {
        return Ok(Log::new(alloc));
    }
    Ok(read_log(alloc, log)?)
}

// Plays a line: shows it, the reply, and what the session then holds. Gives whether it lacked memory.
fn play_line<const PAGES: u32, const SPAN: u32, W: Sink>(
    alloc: Global,
    session: &mut Session<PAGES, SPAN>,
    line: &[u8],
    show: &mut Show<W>,
) -> bool {
    show.line(&[b">", line]);
    let lacked = answer(session, line, show);
    show.line(&[b"holds"]);
    let _ = answer(session, b"pos", show);
    let _ = answer(session, b"log 0 32", show);
    if !show_image(alloc, session, show) {
        let _ = show_image(alloc, session, show);
    }
    show.number(b"steps", session.timeline().steps_run());
    lacked
}

/// Shows the reply to a line, if it has one. Gives whether it lacked memory.
pub fn answer<const PAGES: u32, const SPAN: u32, W: Sink>(
    session: &mut Session<PAGES, SPAN>,
    line: &[u8],
    show: &mut Show<W>,
) -> bool {
    let reply = match parse_line(line) {
        Err(fault) => Reply::Fault(fault),
        Ok(None) => return false,
        Ok(Some(command)) => session.apply(command),
    };
    show.text(reply_text(&reply).as_slice());
    matches!(reply, Reply::Fault(Fault::Memory))
}

// Shows the bytes of the session's image, and gives whether there was memory for them.
fn show_image<const PAGES: u32, const SPAN: u32, W: Sink>(
    alloc: Global,
    session: &Session<PAGES, SPAN>,
    show: &mut Show<W>,
) -> bool {
    match write_image(alloc, session.timeline().image()) {
        Ok(bytes) => {
            show.bytes(b"image", bytes.as_slice());
            true
        }
        Err(_) => {
            show.line(&[b"image", b"memory"]);
            false
        }
    }
}
