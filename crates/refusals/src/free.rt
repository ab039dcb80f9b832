//! What takes no memory, once its room is made.
ghost use Rattle.timeline.specs.Sizes.{AreSizes};

use crate::record::{Machine, machine_of, record_of, show_applies};
use crate::script::{answer, begun};
use crate::show::Show;
use checkpoints::Kept;
use console_index::ConsoleIndex;
use dz_serial::SerialLine;
use input_log::Log;
use r3k_asm::assemble;
use r3k_decode::{decode, encode};
use r3k_disasm::text;
use r3k_machine::{Core, Target, Where};
use samples::ECHO;
use std::alloc::{AllocError, Global};
use wb_text::Command;
use workbench::{RunFault, Session, Sink};
use write_index::{Asked, WriteIndex};

// The lines of a session that take no memory, the last ones refused.
const LINES: [&[u8]; 27] = [
    b"pos",
    b"goto 300",
    b"step 5",
    b"back 7",
    b"pos",
    b"log 0 32",
    b"set 0 0x43",
    b"move 0 90",
    b"log 0 32",
    b"del 1",
    b"log 1 1",
    b"erase 81 100",
    b"erase 80 100",
    b"log 0 32",
    b"erase 131 70",
    b"erase 0 4294967295",
    b"quit",
    b"# nothing",
    b"foo",
    b"reg 32",
    b"goto 18446744073709551615",
    b"back 299",
    b"del 7",
    b"set 7 1",
    b"move 7 1",
    b"writer 0x102",
    b"mem 0x10000 1",
];

/// A machine and what is kept of its run.
#[derive(Drop)]
struct Runs<const PAGES: u32, const SPAN: u32> {
    machine: Machine<PAGES, SPAN>,
    core: Core,
    kept: Kept<PAGES, SPAN>,
}

// Which page each span stored into, and what each sent.
#[derive(Drop)]
struct Indices {
    stores: WriteIndex,
    sent: ConsoleIndex,
}

/// Makes the room, writes `room`, and then does what takes no memory.
pub fn play<const PAGES: u32, const SPAN: u32, W: Sink>(alloc: Global, show: &mut Show<W>)
    requires sizes { AreSizes PAGES SPAN }
{
    if play_in_room::<PAGES, SPAN, W>(alloc, show).is_err() {
        show.line(&[b"no room"]);
    }
}

fn play_in_room<const PAGES: u32, const SPAN: u32, W: Sink>(
    alloc: Global,
    show: &mut Show<W>,
) -> Result<(), RunFault>
    requires sizes { AreSizes PAGES SPAN }
{
    let mut runs = runs_of::<PAGES, SPAN>(alloc)?;
    play_with_runs(alloc, &mut runs, show)
}

fn play_with_runs<const PAGES: u32, const SPAN: u32, W: Sink>(
    alloc: Global,
    runs: &mut Runs<PAGES, SPAN>,
    show: &mut Show<W>,
) -> Result<(), RunFault>
    requires sizes { AreSizes PAGES SPAN }
{
    let indices = indices_of(alloc)?;
    let log = log_of(alloc)?;
    play_with_all(alloc, runs, &indices, &log, show)
}

// Makes the session, which takes the last of the room, and does what takes no memory.
fn play_with_all<const PAGES: u32, const SPAN: u32, W: Sink>(
    alloc: Global,
    runs: &mut Runs<PAGES, SPAN>,
    indices: &Indices,
    log: &Log,
    show: &mut Show<W>,
) -> Result<(), RunFault>
    requires sizes { AreSizes PAGES SPAN }
{
    let mut session = session_of::<PAGES, SPAN>(alloc)?;
    show.line(&[b"room"]);
    show_runs(runs, log, show);
    show_indices(indices, show);
    show_word(0x04E1_0004, show);
    show_lines(&mut session, show);
    show.line(&[b"end"]);
    Ok(())
}

fn runs_of<const PAGES: u32, const SPAN: u32>(alloc: Global) -> Result<Runs<PAGES, SPAN>, RunFault>
    requires sizes { AreSizes PAGES SPAN }
{
    let image = assemble(alloc, ECHO.as_bytes())?;
    let core = Core::reset(alloc, &image)?;
    let mut machine = machine_of::<PAGES, SPAN>(alloc, &image)?;
    let kept = kept_of(alloc, &mut machine)?;
    Ok(Runs {
        machine,
        core,
        kept,
    })
}

// The record of the first span, kept.
fn kept_of<const PAGES: u32, const SPAN: u32>(
    alloc: Global,
    machine: &mut Machine<PAGES, SPAN>,
) -> Result<Kept<PAGES, SPAN>, AllocError> {
    let mut kept = Kept::<PAGES, SPAN>::new(alloc, 1);
    kept.put(record_of(alloc, machine)?)?;
    Ok(kept)
}

fn indices_of(alloc: Global) -> Result<Indices, AllocError> {
    let mut stores = WriteIndex::new(alloc);
    stores.replace(0, &[0])?;
    let mut sent = ConsoleIndex::new(alloc);
    sent.replace(0, [0; 4])?;
    sent.replace(1, [1, 0, 0, 0])?;
    Ok(Indices { stores, sent })
}

// Runs the machine, assigns its core to another, and looks for its record.
fn show_runs<const PAGES: u32, const SPAN: u32, W: Sink>(
    runs: &mut Runs<PAGES, SPAN>,
    log: &Log,
    show: &mut Show<W>,
) {
    show_run(&mut runs.machine, log, show);
    runs.core.assign(runs.machine.live.core());
    let is_cached = runs.core.where_is(0x8000_0010) == Where::Cached(0x10);
    show.number(b"where", is_cached as u64);
    show_applies(b"record", &runs.kept, &runs.machine, show);
}

// Plays the lines of a session.
fn show_lines<const PAGES: u32, const SPAN: u32, W: Sink>(
    session: &mut Session<PAGES, SPAN>,
    show: &mut Show<W>,
) {
    for line in LINES {
        show.line(&[b">", line]);
        let _ = answer(session, line, show);
    }
}

// A log of a byte of step 20.
fn log_of(alloc: Global) -> Result<Log, RunFault> {
    let mut log = Log::new(alloc);
    match log.add(20, 0, 0x41) {
        Ok(_) => Ok(log),
        Err(_) => Err(RunFault::Memory),
    }
}

// The session of the echo program with three bytes. It has what an edit forgets: records of spans, and the state of a position.
fn session_of<const PAGES: u32, const SPAN: u32>(
    alloc: Global,
) -> Result<Box<Session<PAGES, SPAN>>, RunFault>
    requires sizes { AreSizes PAGES SPAN }
{
    let mut session = begun::<PAGES, SPAN>(
        alloc,
        ECHO.as_bytes(),
        b"R3KLOG1\n\x03\0\0\0\x46\0\0\0\0\x41\x50\0\0\0\0\x42\x64\0\0\0\x01\x44",
    )?;
    for command in [Command::Goto(300), Command::Regs, Command::Goto(0)] {
        let _ = session.apply(command);
    }
    Ok(session)
}

// Runs the first span from reset, with the byte: turn 1 of the loop begins at step 20 and reads it, stores 0 in step 26 and sends the
// byte in step 28. Then it stands at reset again.
fn show_run<const PAGES: u32, const SPAN: u32, W: Sink>(
    machine: &mut Machine<PAGES, SPAN>,
    log: &Log,
    show: &mut Show<W>,
) {
    if let Ok(start) = machine.start.clone() {
        machine.live.load(start);
    }
    machine.recorder.clear();
    let events = log.window(0, SPAN as u64);
    machine.live.run(0, events, SPAN, &mut machine.recorder);
    for address in [0x100, 0x104] {
        let step = machine.recorder.writer(Target::Memory(address));
        show.number(b"writer", step.unwrap_or(0) as u64);
    }
    for sent in machine.recorder.sent() {
        show.number(b"sent", sent.step as u64);
    }
    show.number(b"steps", machine.live.steps());
    if let Ok(start) = machine.start.clone() {
        machine.live.load(start);
    }
}

// Looks for the last span that stored into page 0, and for the first byte of line 0.
fn show_indices<W: Sink>(indices: &Indices, show: &mut Show<W>) {
    let Indices { stores, sent } = indices;
    let mut asked = Asked { nodes: 0 };
    let last = stores.last_span(0, 1, &mut asked);
    show.number(b"last_span", last.unwrap_or(99));
    show.number(b"none", stores.last_span(0, 0, &mut asked).unwrap_or(99));
    show.number(b"count", sent.count(SerialLine::new(0), 2));
    let found = sent.find(SerialLine::new(0), 0).unwrap_or((99, 99));
    show.number(b"find", found.0);
    show.number(b"place", found.1);
}

// Decodes a word, encodes it again, and writes its text.
fn show_word<W: Sink>(word: u32, show: &mut Show<W>) {
    if let Some(insn) = decode(word) {
        show.bytes(b"word", &encode(&insn).to_be_bytes());
    }
    show.line(&[b"text", text(0x1FC0_1010, word).as_str().as_bytes()]);
}
