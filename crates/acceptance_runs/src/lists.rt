//! Lists of what is done to a machine or a timeline and asked of it, in spans of 64 steps.
ghost use Rattle.timeline.specs.Sizes.{AreSizes};

use crate::running::Running;
use r3k_asm::assemble;
use samples::{lists, plain, program};
use std::alloc::Global;
use std::process::Abort;
use std::test::Fail;

/// Plays lists, each with its rows as `samples::lists` has them. The lines up to `--` are a list's program. Where it has none it is the
/// source, which also stands for a line `<source>`. Then come clauses, with commas or line feeds between: what is done or asked, and after
/// ` = ` the words and numbers of the whole answer, where it has any. Numbers are as in a source, and a line of `#` is a comment.
///
/// Of a machine, whose places are kept under numbers, of which 0 is reset:
///
///     log, byte T L B, bytes N T L B, framing T L B, level T L V      from now on no event; one more: a byte on line L at time T, N of
///                           them, one with a framing error, a level of external line L
///     run F N               runs N steps from time F on
///     visit F N A = W       runs so until it comes to address A: in W steps, if it does
///     stands = A N, then = A D        the PC, and how many steps were made; the next PC, and whether the PC stands in a delay slot
///     random = W, status = W          a control register
///     memory P = W, holds = P:W ..    the word at a place; all words that are not the image's
///     reports = P:S .. sent L:B:S .. dirty G .. touched G ..
///                           the record of the last run: words with their last steps, bytes with their lines and steps, the pages
///                           stored into, and those touched
///     keep, reset, load P   keeps where it stands; where another machine of the image stands at reset; stands at a place again
///     kept P Q = W          the word at place Q of memory, in a place that is kept
///     differ P Q = G ..     the pages that differ at two places, after `core` if the processor does
///     record P I            makes the record of span I from a place on, and keeps where it ends
///     fact = I E .. sent L:B:S .. dirty G .. touched G ..
///                           that record: its number, its events as T KIND L B, and what it reports
///     starts P, writers A .. = S ..   how its start differs from a place; the last steps that stored into the words at addresses
///     put, records = I ..   keeps it among the records; those of the first 72 spans, and of the last one, that are kept
///     taken P = I ..        those of them that are taken for a start and the events
///     valid = N, join, truncate I     how many records are valid; one more is; those from one on are not
///     poke P Q W            a place with the word at place Q of memory set
///     near I P G .. = B B   whether the record of span I is taken at a place with the events, and whether it nearly applies there, where
///                           these pages are said to differ, beside those that do
///     link, links = I ..    keeps the first two records from reset on, and links them; the records that are linked to the next one
///     counted N M = S       the sum of two counts of steps
///
/// Of a timeline of no events:
///
///     costs = N, costs-at-most N = B  how many steps were run since the last one of these
///     writer P A = Step S             what wrote the word at an address last before a position: or `Image`, or `Never`
///     regwriter P R = S               the step that wrote a register last before a position: 32 is HI, 33 is LO
///     word P A = W, pc P = A          a word, and the PC
///     next P A N = Q                  where the PC is at an address next, in N steps at most
///     trace P N = C                   how many steps are followed from a position on, where N are asked for
///     jumps P K N = Q                 the position from which to ask on after N jumps from a position on: local ones too, if K is 1
///     sender P L I = S, console P = N B ..    the step that sent a byte; how many bytes line 0 sent before a position, and the first 8
///     add T B, ferr T B, wire T L V, burst N T B      events arrive, the first two and N bytes at once on line 0
///     del I, set I B, erase T U, patch A W, events = N        edits; how many events there are
///
/// The answer of what is refused is why.
pub fn plays(rt: &(impl Abort + AllocGlobal), source: &str, text: &str) -> Result<(), Fail> {
    for list in &lists(rt.alloc(), text)? {
        plays_list::<16, 64>(rt, rt.alloc(), source, list.as_str())?;
    }
    Ok(())
}

// Checks over spans are made for sizes that are not known yet.
fn plays_list<const PAGES: u32, const SPAN: u32>(
    rt: &impl Abort,
    alloc: Global,
    source: &str,
    list: &str,
) -> Result<(), Fail>
    requires { AreSizes PAGES SPAN }
{
    let (front, clauses) = list.split_once("\n--\n").ok_or("nothing is asked")?;
    let mut machine = machine_of::<PAGES, SPAN>(alloc, source, front)?;
    let played = plays_clauses(rt, alloc, &mut machine, clauses, list);
    machine.end();
    played
}

// Plays the clauses of a list.
fn plays_clauses<const PAGES: u32, const SPAN: u32>(
    rt: &impl Abort,
    alloc: Global,
    machine: &mut Running<PAGES, SPAN>,
    clauses: &str,
    list: &str,
) -> Result<(), Fail>
    requires { AreSizes PAGES SPAN }
{
    for line in clauses.lines().filter(|line| !line.starts_with("#")) {
        for clause in line.split(", ") {
            plays_clause(rt, alloc, machine, clause, list)?;
        }
    }
    Ok(())
}

// The machine of a list, which begins with its name and its own lines.
fn machine_of<const PAGES: u32, const SPAN: u32>(
    alloc: Global,
    source: &str,
    front: &str,
) -> Result<Running<PAGES, SPAN>, Fail>
    requires { AreSizes PAGES SPAN }
{
    let (_, own) = front.split_once('\n').unwrap_or((front, ""));
    let mut text = program(alloc, own.replace(alloc, "<source>", source)?.as_str())?;
    if text.is_empty() {
        text = program(alloc, source)?;
    }
    let image = assemble(alloc, text.as_bytes())?;
    Running::of(alloc, image, assemble(alloc, text.as_bytes())?)
}

// Does or asks what a clause says, and compares the answer. A message gives the clause, and the list.
fn plays_clause<const PAGES: u32, const SPAN: u32>(
    rt: &impl Abort,
    alloc: Global,
    machine: &mut Running<PAGES, SPAN>,
    clause: &str,
    list: &str,
) -> Result<(), Fail>
    requires { AreSizes PAGES SPAN }
{
    let (asked, wanted) = clause.split_once(" = ").unwrap_or((clause, ""));
    let found = machine.answer(alloc, asked)?;
    assert_eq!(rt; found, plain(alloc, wanted)?, "{clause} of {list}");
    Ok(())
}
