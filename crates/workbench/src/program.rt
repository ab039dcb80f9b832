//! The program: it reads its line, runs the workbench over a reader and a writer, and reports how it went.
ghost use Rattle.std.specs.Prelude.{◌≡◌, ◌++◌, List};
ghost use Rattle.wb_io.specs.Calls.{Call, Moment, Reads, Writes};
ghost use Rattle.workbench.specs.Program.{IsWithoutWords, Program, Serving, ServingInOrder, Reports, error_text, help_text, texts_of};
ghost use Rattle.timeline.specs.Sizes.{AreSizes};

use crate::serving::serve_in_order;
use std::alloc::Global;
use wb_io::{Order, Sink, Source, write_whole};
use wb_options::{RunFault, fault_line, not_text, options, status};

/// Why the program's words can't be had.
#[derive(Clone, Copy, Debug, PartialEq, Eq)]
pub enum NoWords {
    /// There was no memory for them.
    NoMemory,
    /// One of them is not UTF-8 text.
    NotText,
}

/// The program, on a machine with 2048 pages of RAM, 8 MiB, whose runs are kept in spans of 65,536 steps. Before each read of the script
/// all complete lines that were read are answered, each reply written whole. `order` sees these reads.
pub fn r3kwb<R: Source, W: Sink, E: Sink>(
    alloc: Global,
    words: Result<&[&str], NoWords>,
    input: &mut R,
    output: &mut W,
    errors: &mut E,
    order: &mut Order<R, W>,
) -> u8
    ensures { (reads : List Call) × (writes : List Call) × (reports : List Call)
        × Reads (R.reads input.old) (R.reads input.new) (R.left input.old) (R.left input.new) reads
        × Writes (W.writes output.old) (W.writes output.new) (W.written output.old) (W.written output.new) writes
        × Writes (E.writes errors.old) (E.writes errors.new) (E.written errors.old) (E.written errors.new) reports
        × (program : Program 2048 (texts_of words.entry) result reads writes reports)
        × (moments : List Moment) × (order.new ≡ order.old ++ moments)
        × ServingInOrder 2048 (texts_of words.entry) program.outcome reads program.served (record { reads = R.reads input.old; writes = W.writes output.old }) moments }
{
    serve_words::<2048, 65_536, R, W, E>(alloc, words, input, output, errors, order)
}

/// The program on its words, the first of which is its name, or on none. It serves what they ask for, with replies to `output`,
/// reports a fault on `errors`, and gives help on `output`. The result is the exit status.
///
/// Nobody is left to report to where reporting fails.
pub fn serve_words<const PAGES: u32, const SPAN: u32, R: Source, W: Sink, E: Sink>(
    alloc: Global,
    words: Result<&[&str], NoWords>,
    input: &mut R,
    output: &mut W,
    errors: &mut E,
    order: &mut Order<R, W>,
) -> u8
    requires sizes { AreSizes PAGES SPAN }
    ensures { (reads : List Call) × (writes : List Call) × (reports : List Call)
        × Reads (R.reads input.old) (R.reads input.new) (R.left input.old) (R.left input.new) reads
        × Writes (W.writes output.old) (W.writes output.new) (W.written output.old) (W.written output.new) writes
        × Writes (E.writes errors.old) (E.writes errors.new) (E.written errors.old) (E.written errors.new) reports
        × (program : Program PAGES (texts_of words.entry) result reads writes reports)
        × (moments : List Moment) × (order.new ≡ order.old ++ moments)
        × ServingInOrder PAGES (texts_of words.entry) program.outcome reads program.served (record { reads = R.reads input.old; writes = W.writes output.old }) moments }
{
    let outcome = outcome_of::<PAGES, SPAN, R, W>(alloc, words, input, output, order);
    report(&outcome, output, errors);
    status(&outcome)
}

// Serves what the words ask for, or says why not.
fn outcome_of<const PAGES: u32, const SPAN: u32, R: Source, W: Sink>(
    alloc: Global,
    words: Result<&[&str], NoWords>,
    input: &mut R,
    output: &mut W,
    order: &mut Order<R, W>,
) -> Result<(), RunFault>
    requires sizes { AreSizes PAGES SPAN }
    ensures { (reads : List Call) × (writes : List Call)
        × Reads (R.reads input.old) (R.reads input.new) (R.left input.old) (R.left input.new) reads
        × Writes (W.writes output.old) (W.writes output.new) (W.written output.old) (W.written output.new) writes
        × Serving PAGES (texts_of words.entry) result reads writes
        × (moments : List Moment) × (order.new ≡ order.old ++ moments)
        × ServingInOrder PAGES (texts_of words.entry) result reads writes (record { reads = R.reads input.old; writes = W.writes output.old }) moments }
{
    let words = match words {
        Err(why) => return Err(without_words(alloc, why)),
        Ok(words) => words,
    };
    match options(alloc, words) {
        Err(fault) => Err(fault),
        Ok(options) => serve_in_order::<PAGES, SPAN, R, W>(alloc, options, input, output, order),
    }
}

// What is wrong where there are no words.
fn without_words(alloc: Global, why: NoWords) -> RunFault
    ensures { IsWithoutWords why result }
{
    match why {
        NoWords::NoMemory => RunFault::Memory,
        NoWords::NotText => not_text(alloc),
    }
}

// Reports a fault on `errors`, and gives help on `output`.
fn report<W: Sink, E: Sink>(outcome: &Result<(), RunFault>, output: &mut W, errors: &mut E)
    ensures { (helped : List Call) × (reports : List Call)
        × Writes (W.writes output.old) (W.writes output.new) (W.written output.old) (W.written output.new) helped
        × Writes (E.writes errors.old) (E.writes errors.new) (E.written errors.old) (E.written errors.new) reports
        × Reports (help_text outcome.now) helped
        × Reports (error_text outcome.now) reports }
{
    match outcome {
        Ok(()) => {}
        Err(RunFault::Help(text)) => {
            let _ = write_whole(output, text.as_bytes());
        }
        Err(RunFault::Usage(text)) => {
            let _ = write_whole(errors, text.as_bytes());
        }
        Err(fault) => {
            let line = fault_line(fault);
            let _ = write_whole(errors, line.as_slice());
        }
    }
}
