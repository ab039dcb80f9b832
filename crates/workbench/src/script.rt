//! A script: its lines are read, answered one after the other, and each reply is written whole.
ghost use Rattle.std.specs.Prelude.{◌≡◌, ◌≤◌, ◌∷◌, ◌++◌, [], List, MatchResult, length};
ghost use Rattle.wb_io.specs.Calls.{Call, Moment, Reads, TakesAll, TakesFront, Writes};
ghost use Rattle.wb_options.specs.declared.fault.RunFault.TheVariants.{WriteFault};
ghost use Rattle.workbench.specs.LineBuffer.{HasNoFeed};
ghost use Rattle.workbench.specs.Runs.{AnswersFirst, RunsScript, ScriptRuns, WritesText, max_reads};
ghost use Rattle.workbench.specs.Script.{is_quit, lines_of};
ghost use Rattle.timeline.specs.Sizes.{AreSizes};
ghost use Rattle.wb_session.specs.Session.{triple_of};
ghost use Rattle.workbench.specs.Taking.{Answered, IsLineOutcome, Stops, Took, Unanswered};

use crate::line_buffer::LineBuffer;
use input_log::Log;
use r3k_image::Image;
use std::alloc::Global;
use wb_io::{Order, PIECE_BYTES, Sink, Source, write_whole};
use wb_options::RunFault;
use wb_session::Session;
use wb_text::{Command, Reply, parse_line, reply_text};

/// The most reads of a run.
pub(crate) const MAX_READS: u32 = 1 << 20;

/// Runs a script: reads it from `reader`, answers its lines one after the other on a machine with the image and the log,
/// and writes each reply whole before the next line is run.
///
/// An image that does not fit the machine is refused before anything is read. A failed read, or more than 2^20 reads, is
/// a read fault; a write that fails or takes no byte is a write fault.
pub fn run<const PAGES: u32, const SPAN: u32, R: Source, W: Sink>(
    alloc: Global,
    image: Image,
    log: Log,
    reader: &mut R,
    writer: &mut W,
) -> Result<(), RunFault>
    requires sizes { AreSizes PAGES SPAN }
    ensures { (reads : List Call) × (writes : List Call)
        × Reads (R.reads reader.old) (R.reads reader.new) (R.left reader.old) (R.left reader.new) reads
        × Writes (W.writes writer.old) (W.writes writer.new) (W.written writer.old) (W.written writer.new) writes
        × (length reads ≤ max_reads)
        × RunsScript PAGES max_reads image log result reads writes }
{
    let mut order = Order::new();
    run_with::<PAGES, SPAN, R, W>(alloc, image, log, reader, writer, &mut order, MAX_READS)
}

/// Runs a script with at most `most` reads. Before each of them all complete lines that were read are answered, and the replies
/// are written whole. `order` sees each read.
pub(crate) fn run_with<const PAGES: u32, const SPAN: u32, R: Source, W: Sink>(
    alloc: Global,
    image: Image,
    log: Log,
    reader: &mut R,
    writer: &mut W,
    order: &mut Order<R, W>,
    most: u32,
) -> Result<(), RunFault>
    requires sizes { AreSizes PAGES SPAN }
    ensures { (reads : List Call) × (writes : List Call)
        × Reads (R.reads reader.old) (R.reads reader.new) (R.left reader.old) (R.left reader.new) reads
        × Writes (W.writes writer.old) (W.writes writer.new) (W.written writer.old) (W.written writer.new) writes
        × (length reads ≤ most)
        × RunsScript PAGES most image log result reads writes
        × (moments : List Moment) × (order.new ≡ order.old ++ moments)
        × AnswersFirst PAGES (record { image = image; log = log; position = 0 }) (record { reads = R.reads reader.old; writes = W.writes writer.old }) [] reads moments }
{
    let mut session = match Session::<PAGES, SPAN>::new(alloc, image, log) {
        Ok(session) => session,
        Err(refusal) => return Err(refusal),
    };
    run_script(&mut session, reader, writer, order, most)
}

// Reads a script and answers its lines.
fn run_script<const PAGES: u32, const SPAN: u32, R: Source, W: Sink>(
    session: &mut Session<PAGES, SPAN>,
    reader: &mut R,
    writer: &mut W,
    order: &mut Order<R, W>,
    most: u32,
) -> Result<(), RunFault>
    ensures { (reads : List Call) × (writes : List Call)
        × Reads (R.reads reader.old) (R.reads reader.new) (R.left reader.old) (R.left reader.new) reads
        × Writes (W.writes writer.old) (W.writes writer.new) (W.written writer.old) (W.written writer.new) writes
        × (length reads ≤ most)
        × ScriptRuns PAGES most (triple_of session.old) result reads writes
        × (moments : List Moment) × (order.new ≡ order.old ++ moments)
        × AnswersFirst PAGES (triple_of session.old) (record { reads = R.reads reader.old; writes = W.writes writer.old }) [] reads moments }
{
    let mut line = LineBuffer::new();
    let mut piece = [0u8; PIECE_BYTES];
    for _made in 0..most {
        let count = match order.read(reader, writer, &mut piece) {
            Err(_) => return Err(RunFault::ReadFault),
            Ok(0) => return end_script(session, &line, writer),
            Ok(count) => count,
        };
        match take_piece(session, &mut line, &piece[..count], writer) {
            Err(fault) => return Err(fault),
            Ok(quits) => {
                if quits {
                    return Ok(());
                }
            }
        }
    }
    // The most reads were made.
    Err(RunFault::ReadFault)
}

// Answers a last line that no line feed ends.
fn end_script<const PAGES: u32, const SPAN: u32, W: Sink>(
    session: &mut Session<PAGES, SPAN>,
    line: &LineBuffer,
    writer: &mut W,
) -> Result<(), RunFault>
    ensures { (calls : List Call)
        × Writes (W.writes writer.old) (W.writes writer.new) (W.written writer.old) (W.written writer.new) calls
        × MatchResult result
        (λ _. WritesText TakesAll PAGES (triple_of session.old) (lines_of line.now) calls)
        (λ fault. (fault ≡ WriteFault) × WritesText TakesFront PAGES (triple_of session.old) (lines_of line.now) calls) }
{
    let bytes = line.bytes();
    if bytes.is_empty() {
        return Ok(());
    }
    match answer_line(session, bytes, writer) {
        Err(fault) => Err(fault),
        Ok(_) => Ok(()),
    }
}

// Takes the bytes of a piece in turn, up to a line `quit`, and says whether there was one.
fn take_piece<const PAGES: u32, const SPAN: u32, W: Sink>(
    session: &mut Session<PAGES, SPAN>,
    line: &mut LineBuffer,
    piece: &[u8],
    writer: &mut W,
) -> Result<bool, RunFault>
    requires { HasNoFeed line.old }
    ensures { (calls : List Call)
        × Writes (W.writes writer.old) (W.writes writer.new) (W.written writer.old) (W.written writer.new) calls
        × MatchResult result
        (λ quits. Took PAGES (triple_of session.old) (triple_of session.new) line.old line.new piece.now calls quits)
        (λ fault. (fault ≡ WriteFault) × Stops PAGES (triple_of session.old) (line.old ++ piece.now) calls) }
{
    for byte in piece {
        match take_byte(session, line, *byte, writer) {
            Err(fault) => return Err(fault),
            Ok(quits) => {
                if quits {
                    return Ok(true);
                }
            }
        }
    }
    Ok(false)
}

// Takes a byte, and says whether it ends a line `quit`.
fn take_byte<const PAGES: u32, const SPAN: u32, W: Sink>(
    session: &mut Session<PAGES, SPAN>,
    line: &mut LineBuffer,
    byte: u8,
    writer: &mut W,
) -> Result<bool, RunFault>
    ensures { (calls : List Call)
        × Writes (W.writes writer.old) (W.writes writer.new) (W.written writer.old) (W.written writer.new) calls
        × MatchResult result
        (λ quits. Took PAGES (triple_of session.old) (triple_of session.new) line.old line.new (byte ∷ []) calls quits)
        (λ fault. (fault ≡ WriteFault) × Stops PAGES (triple_of session.old) (line.old ++ byte ∷ []) calls) }
{
    if byte != b'\n' {
        line.push(byte);
        return Ok(false);
    }
    match answer_line(session, line.bytes(), writer) {
        Err(fault) => Err(fault),
        Ok(quits) => {
            line.clear();
            Ok(quits)
        }
    }
}

// Answers a line, and says whether it is `quit`.
fn answer_line<const PAGES: u32, const SPAN: u32, W: Sink>(
    session: &mut Session<PAGES, SPAN>,
    line: &[u8],
    writer: &mut W,
) -> Result<bool, RunFault>
    ensures { (calls : List Call)
        × Writes (W.writes writer.old) (W.writes writer.new) (W.written writer.old) (W.written writer.new) calls
        × MatchResult result
        (λ quits. Answered PAGES (triple_of session.old) line.now (triple_of session.new) calls quits)
        (λ fault. (fault ≡ WriteFault) × Unanswered PAGES (triple_of session.old) line.now calls) }
{
    let reply = match answer_to(session, line) {
        LineOutcome::Quit => return Ok(true),
        LineOutcome::Nothing => return Ok(false),
        LineOutcome::Reply(reply) => reply,
    };
    let text = reply_text(&reply);
    match write_whole(writer, text.as_slice()) {
        Err(_) => Err(RunFault::WriteFault),
        Ok(()) => Ok(false),
    }
}

// What a line brings.
#[derive(Drop)]
enum LineOutcome {
    // The end of the script.
    Quit,
    // Nothing: it has no command.
    Nothing,
    // A reply.
    Reply(Reply),
}

// Does what a line says, unless that is `quit`.
fn answer_to<const PAGES: u32, const SPAN: u32>(
    session: &mut Session<PAGES, SPAN>,
    line: &[u8],
) -> LineOutcome
    ensures { IsLineOutcome PAGES (triple_of session.old) line.now (triple_of session.new) result }
{
    match parse_line(line) {
        Err(fault) => LineOutcome::Reply(Reply::Fault(fault)),
        Ok(None) => LineOutcome::Nothing,
        Ok(Some(command)) => {
            if is_quit(&command) {
                return LineOutcome::Quit;
            }
            LineOutcome::Reply(session.apply(command))
        }
    }
}

fn is_quit(command: &Command) -> bool
    ensures { result ≡ is_quit command.now }
{
    matches!(command, Command::Quit)
}
