//! The calls that take memory, on small inputs. Each writes a line with what it gave. A call that lacked memory is made once more.
ghost use Rattle.timeline.specs.Sizes.{AreSizes};

use crate::record::show_record;
use crate::script::{begun, boxed};
use crate::show::Show;
use input_log::{Log, LogFault, read_log, write_log};
use r3k_asm::assemble;
use r3k_image::{Image, ImageFault, raw_rom, read_image, write_image};
use samples::{ECHO, LOAD_SLOT};
use std::alloc::Global;
use timeline::Timeline;
use workbench::{Kind, Options, Plan, RunFault, Sink, options, serve, status};

#[derive(Clone, Copy)]
enum Call {
    ReadImage,
    RawRom,
    WriteImage,
    ReadLog,
    WriteLog,
    ReadKinds,
    WriteKinds,
    Assemble,
    Timeline,
    Follow,
    RegisterWriter,
    Session,
    Serve,
    Options,
    Usage,
    Help,
    Record,
}

const CALLS: [(Call, &[u8]); 17] = [
    (Call::ReadImage, b"read_image"),
    (Call::RawRom, b"raw_rom"),
    (Call::WriteImage, b"write_image"),
    (Call::ReadLog, b"read_log"),
    (Call::WriteLog, b"write_log"),
    (Call::ReadKinds, b"read_kinds"),
    (Call::WriteKinds, b"write_kinds"),
    (Call::Assemble, b"assemble"),
    (Call::Timeline, b"Timeline::new"),
    (Call::Follow, b"Timeline::follow"),
    (Call::RegisterWriter, b"Timeline::register_writer_at"),
    (Call::Session, b"Session::new"),
    (Call::Serve, b"serve"),
    (Call::Options, b"options"),
    (Call::Usage, b"options_usage"),
    (Call::Help, b"options_help"),
    (Call::Record, b"Fact::make"),
];

// One event: byte 0x41 at line 0 in step 70.
const LOG: &[u8] = b"R3KLOG1\n\x01\0\0\0\x46\0\0\0\0\x41";

// In version two: the same byte with a framing error, and level 1 of external line 2 in step 71.
const KINDS: &[u8] = b"R3KLOG2\n\x02\0\0\0\x46\0\0\0\0\0\0\0\x01\0\x41\
\x47\0\0\0\0\0\0\0\x02\x02\x01";

/// Makes each call, and once more where it lacked memory.
pub fn play<const PAGES: u32, const SPAN: u32, W: Sink>(alloc: Global, show: &mut Show<W>)
    requires sizes { AreSizes PAGES SPAN }
{
    for (call, name) in CALLS {
        if lacked::<PAGES, SPAN, W>(alloc, call, name, show) {
            let _ = lacked::<PAGES, SPAN, W>(alloc, call, name, show);
        }
    }
}

// Makes a call and shows what it gave. Gives whether it lacked memory.
fn lacked<const PAGES: u32, const SPAN: u32, W: Sink>(
    alloc: Global,
    call: Call,
    name: &[u8],
    show: &mut Show<W>,
) -> bool
    requires sizes { AreSizes PAGES SPAN }
{
    match made::<PAGES, SPAN, W>(alloc, call, name, show) {
        Ok(()) => false,
        Err(RunFault::Memory) => {
            show.line(&[name, b"memory"]);
            true
        }
        Err(RunFault::Usage(text)) => {
            show.bytes(name, text.as_bytes());
            false
        }
        Err(RunFault::Help(text)) => {
            show.bytes(name, text.as_bytes());
            false
        }
        Err(_) => {
            show.line(&[name, b"fault"]);
            false
        }
    }
}

// Makes a call and shows what it gave.
fn made<const PAGES: u32, const SPAN: u32, W: Sink>(
    alloc: Global,
    call: Call,
    name: &[u8],
    show: &mut Show<W>,
) -> Result<(), RunFault>
    requires sizes { AreSizes PAGES SPAN }
{
    match call {
        Call::Timeline | Call::Follow | Call::RegisterWriter => {
            made_of_timeline::<PAGES, SPAN, W>(alloc, call, name, show)
        }
        Call::Session => show_session::<PAGES, SPAN, W>(alloc, name, show),
        Call::Serve => show_served::<PAGES, SPAN, W>(alloc, name, show),
        Call::Record => show_first_record::<PAGES, SPAN, W>(alloc, name, show),
        _ => made_of_bytes(alloc, call, name, show),
    }
}

// Makes a call on an image, a log, a source or a command line.
fn made_of_bytes<W: Sink>(
    alloc: Global,
    call: Call,
    name: &[u8],
    show: &mut Show<W>,
) -> Result<(), RunFault> {
    match call {
        Call::ReadImage => show_words(name, read_image(alloc, &LOAD_SLOT), show),
        Call::RawRom => show_words(name, raw_rom(alloc, &LOAD_SLOT), show),
        Call::WriteImage => show_written_image(alloc, name, show),
        Call::ReadLog => show_log(name, read_log(alloc, LOG), show),
        Call::WriteLog => show_written_log(alloc, name, LOG, show),
        Call::ReadKinds => show_log(name, read_log(alloc, KINDS), show),
        Call::WriteKinds => show_written_log(alloc, name, KINDS, show),
        Call::Assemble => show_assembled(alloc, name, show),
        _ => made_of_words(alloc, call, name, show),
    }
}

// Reads a command line.
fn made_of_words<W: Sink>(
    alloc: Global,
    call: Call,
    name: &[u8],
    show: &mut Show<W>,
) -> Result<(), RunFault> {
    match call {
        Call::Options => show_options(alloc, name, &["r3kwb", "--log", "18"], show),
        Call::Usage => show_options(alloc, name, &["r3kwb", "--log", "x"], show),
        _ => show_options(alloc, name, &["r3kwb", "--help"], show),
    }
}

// Shows the words of an image that was read.
fn show_words<W: Sink>(
    name: &[u8],
    image: Result<Image, ImageFault>,
    show: &mut Show<W>,
) -> Result<(), RunFault> {
    show_image(name, &image?, show);
    Ok(())
}

fn show_written_image<W: Sink>(
    alloc: Global,
    name: &[u8],
    show: &mut Show<W>,
) -> Result<(), RunFault> {
    let image = read_image(alloc, &LOAD_SLOT)?;
    let bytes = write_image(alloc, &image)?;
    show.bytes(name, bytes.as_slice());
    Ok(())
}

fn show_log<W: Sink>(
    name: &[u8],
    log: Result<Log, LogFault>,
    show: &mut Show<W>,
) -> Result<(), RunFault> {
    show_events(name, &log?, show);
    Ok(())
}

fn show_written_log<W: Sink>(
    alloc: Global,
    name: &[u8],
    log: &[u8],
    show: &mut Show<W>,
) -> Result<(), RunFault> {
    let log = read_log(alloc, log)?;
    let bytes = write_log(alloc, &log)?;
    show.bytes(name, bytes.as_slice());
    Ok(())
}

fn show_assembled<W: Sink>(alloc: Global, name: &[u8], show: &mut Show<W>) -> Result<(), RunFault> {
    let image = assemble(alloc, ECHO.as_bytes())?;
    show_image(name, &image, show);
    Ok(())
}

// The timeline of an image and a log.
fn timeline_of<const PAGES: u32, const SPAN: u32>(
    alloc: Global,
) -> Result<Box<Timeline<PAGES, SPAN>>, RunFault>
    requires sizes { AreSizes PAGES SPAN }
{
    let image = read_image(alloc, &LOAD_SLOT)?;
    let log = read_log(alloc, LOG)?;
    boxed(alloc, Timeline::<PAGES, SPAN>::new(alloc, image, log)?)
}

// Makes a timeline, and a call of it.
fn made_of_timeline<const PAGES: u32, const SPAN: u32, W: Sink>(
    alloc: Global,
    call: Call,
    name: &[u8],
    show: &mut Show<W>,
) -> Result<(), RunFault>
    requires sizes { AreSizes PAGES SPAN }
{
    let mut timeline = timeline_of::<PAGES, SPAN>(alloc)?;
    match call {
        Call::Follow => show_followed::<PAGES, SPAN, W>(&mut timeline, name, show),
        Call::RegisterWriter => show_register_writer::<PAGES, SPAN, W>(&mut timeline, name, show),
        _ => {
            show_image(name, timeline.image(), show);
            show_events(name, timeline.log(), show);
            Ok(())
        }
    }
}

// Shows what the first steps of a second span do.
fn show_followed<const PAGES: u32, const SPAN: u32, W: Sink>(
    timeline: &mut Timeline<PAGES, SPAN>,
    name: &[u8],
    show: &mut Show<W>,
) -> Result<(), RunFault>
    requires sizes { AreSizes PAGES SPAN }
{
    let Ok(steps) = timeline.follow(64, 4) else {
        return Err(RunFault::Memory);
    };
    for step in &steps {
        show.text(name);
        show.bytes(b"", &step.pc.to_be_bytes());
    }
    Ok(())
}

// Shows which step wrote r2 last before the third step of a third span: that of its load.
fn show_register_writer<const PAGES: u32, const SPAN: u32, W: Sink>(
    timeline: &mut Timeline<PAGES, SPAN>,
    name: &[u8],
    show: &mut Show<W>,
) -> Result<(), RunFault>
    requires sizes { AreSizes PAGES SPAN }
{
    let Ok(step) = timeline.register_writer_at(130, 2) else {
        return Err(RunFault::Memory);
    };
    show.number(name, step);
    Ok(())
}

fn show_session<const PAGES: u32, const SPAN: u32, W: Sink>(
    alloc: Global,
    name: &[u8],
    show: &mut Show<W>,
) -> Result<(), RunFault>
    requires sizes { AreSizes PAGES SPAN }
{
    let made = begun::<PAGES, SPAN>(alloc, &LOAD_SLOT, LOG)?;
    show_image(name, made.timeline().image(), show);
    show_events(name, made.timeline().log(), show);
    Ok(())
}

fn show_first_record<const PAGES: u32, const SPAN: u32, W: Sink>(
    alloc: Global,
    name: &[u8],
    show: &mut Show<W>,
) -> Result<(), RunFault>
    requires sizes { AreSizes PAGES SPAN }
{
    let image = assemble(alloc, ECHO.as_bytes())?;
    show_record::<PAGES, SPAN, W>(alloc, name, &image, show)?;
    Ok(())
}

// Shows the words that an image sets in the first page of RAM and in that of ROM.
fn show_image<W: Sink>(name: &[u8], image: &Image, show: &mut Show<W>) {
    for start in [0u32, 0x1FC0_0000, 0x1FC0_1000] {
        for place in 0..128u32 {
            if let Some(word) = image.word(start + 4 * place) {
                show.text(name);
                show.bytes(b"", &word.to_be_bytes());
            }
        }
    }
}

// Shows the events of a log.
fn show_events<W: Sink>(name: &[u8], log: &Log, show: &mut Show<W>) {
    for event in log.events() {
        show.text(name);
        show.number(b"", event.time);
    }
}

// Serves an image, a log and a script, with plans whose room is made first.
fn show_served<const PAGES: u32, const SPAN: u32, W: Sink>(
    alloc: Global,
    name: &[u8],
    show: &mut Show<W>,
) -> Result<(), RunFault>
    requires sizes { AreSizes PAGES SPAN }
{
    let mut input = Vec::from_slice(alloc, &LOAD_SLOT)?;
    input.extend_from_slice(LOG)?;
    input.extend_from_slice(b"goto 3\nreg 2\nwriter 0x100\n")?;
    let mut reader = Plan::new(alloc, &input, 4096, 0)?;
    let mut writer = Plan::new(alloc, &[], 4096, 256)?;
    serve_between::<PAGES, SPAN, W>(alloc, name, &mut reader, &mut writer, show)
}

// Serves what a reader gives, and shows the status and what was written.
fn serve_between<const PAGES: u32, const SPAN: u32, W: Sink>(
    alloc: Global,
    name: &[u8],
    reader: &mut Plan,
    writer: &mut Plan,
    show: &mut Show<W>,
) -> Result<(), RunFault>
    requires sizes { AreSizes PAGES SPAN }
{
    let options = Options {
        kind: Kind::Image,
        size: 68,
        log_size: 18,
    };
    let outcome = serve::<PAGES, SPAN, Plan, Plan>(alloc, options, reader, writer);
    show.number(name, status(&outcome) as u64);
    show.bytes(name, writer.written());
    outcome
}

// Reads the words of a line.
fn show_options<W: Sink>(
    alloc: Global,
    name: &[u8],
    words: &[&str],
    show: &mut Show<W>,
) -> Result<(), RunFault> {
    let options = options(alloc, words)?;
    show.number(name, options.log_size as u64);
    Ok(())
}
