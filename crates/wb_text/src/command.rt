//! Commands of a script, and how a line says them.

ghost use Rattle.std.specs.Prelude.{◌≡◌, ◌<◌, MatchResult, Ok, Err, ℕ, List, [], ◌∷◌, length};
ghost use Rattle.wb_text.specs.Words.{words_of};
ghost use Rattle.wb_text.specs.Number.{number_of, number_within};
ghost use Rattle.wb_text.specs.Command.{command_of, command_of_words, command_named, state_query_named, run_query_named, edit_named, first_of, both_of, numbers_of};

use crate::bounded::{
    Address, AnyNumber, Bounded, ByteCount, ByteValue, Distance, EntryNumber, EventCount,
    EventTime, FindCount, JumpCount, JumpKind, Level, LineNumber, PositionCount, RegisterNumber,
    StepCount, StoreCount, TraceCount, WireNumber, WordCount, WordValue, WrittenNumber,
};
use crate::number::number;
use crate::words::first_word;
use refusal::Fault;

/// A command of a script.
#[derive(Clone, Copy, Debug)]
pub enum Command {
    /// Shows the position.
    Pos,
    /// Moves to a position.
    Goto(u64),
    /// Moves forward by this many steps.
    Step(u64),
    /// Moves back by this many steps.
    Back(u64),
    /// Moves forward to the next position whose instruction stands at an address, by at most this many
    /// steps.
    Visit {
        address: Address,
        limit: StepCount,
    },
    /// Shows the registers.
    Regs,
    /// Shows a register.
    Reg(RegisterNumber),
    /// Shows the control registers.
    Cp0,
    /// Shows a translation entry.
    Tlb(EntryNumber),
    /// Shows where an address leads.
    Where(Address),
    /// Shows words of memory.
    Mem {
        address: Address,
        count: WordCount,
    },
    /// Shows words of memory as instructions.
    Dis {
        address: Address,
        count: WordCount,
    },
    /// Shows bytes that were sent on a line, from one on.
    Console {
        line: LineNumber,
        from: u64,
        count: ByteCount,
    },
    /// Shows the step that sent the byte at a place of a line.
    Find {
        line: LineNumber,
        place: u64,
    },
    /// Shows the last writer of a word of memory.
    Writer(Address),
    /// Shows the last steps that stored into a word of memory.
    Stores {
        address: Address,
        count: StoreCount,
    },
    /// Shows the steps that sent the bytes of a line, from one on.
    Finds {
        line: LineNumber,
        place: u64,
        count: FindCount,
    },
    /// Shows the last step that wrote a register.
    RegisterWriter(WrittenNumber),
    /// Shows the PC at the position and at later ones.
    Pcs {
        distance: Distance,
        count: PositionCount,
    },
    /// Shows what the devices hold.
    Devices,
    /// Shows what this many steps from the position on do.
    Trace(TraceCount),
    /// Shows the next steps that transfer control: calls, returns and exceptions, or all.
    Jumps {
        kind: JumpKind,
        count: JumpCount,
    },
    /// Shows events of the log, from one on.
    Log {
        from: u64,
        count: EventCount,
    },
    /// Puts the arrival of a byte into the log.
    Add {
        time: EventTime,
        line: LineNumber,
        byte: ByteValue,
    },
    /// Puts the arrival of a byte with a framing error into the log.
    Ferr {
        time: EventTime,
        line: LineNumber,
        byte: ByteValue,
    },
    /// Puts a level of an external line into the log.
    Wire {
        time: EventTime,
        line: WireNumber,
        level: Level,
    },
    /// Takes an event out of the log.
    Del(u64),
    /// Changes the byte of an event.
    Set {
        event: u64,
        byte: ByteValue,
    },
    /// Changes the step of an event.
    Move {
        event: u64,
        time: EventTime,
    },
    /// Takes the events of the times from one position up to another out of the log.
    Erase {
        from: u64,
        to: u64,
    },
    /// Sets a word of the image.
    Patch {
        address: Address,
        word: WordValue,
    },
    /// Ends the script.
    Quit,
}

/// The most bytes that a line has, without its line feed and a carriage return before it.
pub const LINE_BYTES: usize = 256;

/// What a line, without its line feed, says: a command, or nothing where it has no word or is a
/// comment. What is no command is Syntax, and a number above 2^64 - 1 is Range where the line has
/// no Syntax.
pub fn parse_line(line: &[u8]) -> Result<Option<Command>, Fault>
    ensures { result ≡ command_of line.now }
{
    let text = match line {
        [text @ .., b'\r'] => text,
        _ => line,
    };
    if text.len() > LINE_BYTES {
        return Err(Fault::Syntax);
    }
    command_in(text)
}

// The command of a text that is not too long.
fn command_in(text: &[u8]) -> Result<Option<Command>, Fault>
    ensures { result ≡ command_of_words (words_of text.now) }
{
    match first_word(text) {
        None => Ok(None),
        Some((name, _)) if name.starts_with(b"#") => Ok(None),
        Some((name, rest)) => command_by_name(name, rest).map(Some),
    }
}

// The command of a row: its numbers are read, each in its range.
macro_rules! command {
    ($rest:ident () $command:expr) => {{
        no_number($rest)?;
        Ok($command)
    }};
    ($rest:ident ($number:ident: $range:ty) $command:expr) => {{
        let $number: $range = one_number($rest)?;
        Ok($command)
    }};
    ($rest:ident ($number:ident: $range:ty, $next:ident: $next_range:ty) $command:expr) => {{
        let ($number, $next): ($range, $next_range) = two_numbers($rest)?;
        Ok($command)
    }};
    ($rest:ident ($number:ident: $range:ty, $next:ident: $next_range:ty, $last:ident: $last_range:ty) $command:expr) => {{
        let ($number, $next, $last): ($range, $next_range, $last_range) = three_numbers($rest)?;
        Ok($command)
    }};
}

// The command of a name and the text after it, by the rows of a table. Any other name is left to `$others`.
macro_rules! command_among {
    (($name:ident, $rest:ident) $($row_name:literal $numbers:tt => $command:expr,)* else $others:expr) => {
        $(if $name == $row_name.as_slice() {
            command!($rest $numbers $command)
        } else)* {
            $others
        }
    };
}

// Performance: the tables are four functions, since the check of one takes more than in proportion to its rows.

// The command of a name and the text after it: a move or the end, or what the other tables have.
fn command_by_name(name: &[u8], rest: &[u8]) -> Result<Command, Fault>
    ensures { result ≡ command_named name.now (words_of rest.now) }
{
    command_among! {
        (name, rest)
        b"pos" () => Command::Pos,
        b"goto" (position: AnyNumber) => Command::Goto(position.get()),
        b"step" (steps: AnyNumber) => Command::Step(steps.get()),
        b"back" (steps: AnyNumber) => Command::Back(steps.get()),
        b"visit" (address: Address, limit: StepCount) => Command::Visit { address, limit },
        b"quit" () => Command::Quit,
        else state_query_by_name(name, rest)
    }
}

// A question about the state at the position, or what the tables after it have.
fn state_query_by_name(name: &[u8], rest: &[u8]) -> Result<Command, Fault>
    ensures { result ≡ state_query_named name.now (words_of rest.now) }
{
    command_among! {
        (name, rest)
        b"regs" () => Command::Regs,
        b"reg" (number: RegisterNumber) => Command::Reg(number),
        b"cp0" () => Command::Cp0,
        b"tlb" (number: EntryNumber) => Command::Tlb(number),
        b"where" (address: Address) => Command::Where(address),
        b"mem" (address: Address, count: WordCount) => Command::Mem { address, count },
        b"dis" (address: Address, count: WordCount) => Command::Dis { address, count },
        b"devices" () => Command::Devices,
        else run_query_by_name(name, rest)
    }
}

// A question about the run, or an edit.
fn run_query_by_name(name: &[u8], rest: &[u8]) -> Result<Command, Fault>
    ensures { result ≡ run_query_named name.now (words_of rest.now) }
{
    command_among! {
        (name, rest)
        b"console" (line: LineNumber, from: AnyNumber, count: ByteCount) => Command::Console { line, from: from.get(), count },
        b"find" (line: LineNumber, place: AnyNumber) => Command::Find { line, place: place.get() },
        b"writer" (address: Address) => Command::Writer(address),
        b"stores" (address: Address, count: StoreCount) => Command::Stores { address, count },
        b"finds" (line: LineNumber, place: AnyNumber, count: FindCount) => Command::Finds { line, place: place.get(), count },
        b"regwriter" (number: WrittenNumber) => Command::RegisterWriter(number),
        b"pcs" (distance: Distance, count: PositionCount) => Command::Pcs { distance, count },
        b"trace" (count: TraceCount) => Command::Trace(count),
        b"jumps" (kind: JumpKind, count: JumpCount) => Command::Jumps { kind, count },
        else edit_by_name(name, rest)
    }
}

// A command that shows or edits the log, or patches the image.
fn edit_by_name(name: &[u8], rest: &[u8]) -> Result<Command, Fault>
    ensures { result ≡ edit_named name.now (words_of rest.now) }
{
    command_among! {
        (name, rest)
        b"log" (from: AnyNumber, count: EventCount) => Command::Log { from: from.get(), count },
        b"add" (time: EventTime, line: LineNumber, byte: ByteValue) => Command::Add { time, line, byte },
        b"ferr" (time: EventTime, line: LineNumber, byte: ByteValue) => Command::Ferr { time, line, byte },
        b"wire" (time: EventTime, line: WireNumber, level: Level) => Command::Wire { time, line, level },
        b"del" (event: AnyNumber) => Command::Del(event.get()),
        b"set" (event: AnyNumber, byte: ByteValue) => Command::Set { event: event.get(), byte },
        b"move" (event: AnyNumber, time: EventTime) => Command::Move { event: event.get(), time },
        b"erase" (from: AnyNumber, to: AnyNumber) => Command::Erase { from: from.get(), to: to.get() },
        b"patch" (address: Address, word: WordValue) => Command::Patch { address, word },
        else Err(Fault::Syntax)
    }
}

// Judges the words of a command that takes no number.
fn no_number(rest: &[u8]) -> Result<(), Fault>
    ensures { let numbers = numbers_of [] (words_of rest.now) in
        MatchResult result (λ _. numbers ≡ Ok []) (λ fault. numbers ≡ Err fault) }
{
    match first_word(rest) {
        None => Ok(()),
        Some(_) => Err(Fault::Syntax),
    }
}

// The number of a command that takes one.
fn one_number<const LEAST: u64, const MOST: u64>(rest: &[u8]) -> Result<Bounded<LEAST, MOST>, Fault>
    ensures { let numbers = numbers_of ((LEAST, MOST) ∷ []) (words_of rest.now) in
        MatchResult result (λ number. numbers ≡ Ok (number ∷ [])) (λ fault. numbers ≡ Err fault) }
{
    let Some((word, after)) = first_word(rest) else {
        return Err(Fault::Syntax);
    };
    no_number(after)?;
    bounded_number(word)
}

// The numbers of a command that takes two.
fn two_numbers<const LEAST: u64, const MOST: u64, const NEXT_LEAST: u64, const NEXT_MOST: u64>(
    rest: &[u8],
) -> Result<(Bounded<LEAST, MOST>, Bounded<NEXT_LEAST, NEXT_MOST>), Fault>
    ensures { let numbers = numbers_of ((LEAST, MOST) ∷ (NEXT_LEAST, NEXT_MOST) ∷ []) (words_of rest.now) in
        MatchResult result (λ pair. numbers ≡ Ok (pair.0 ∷ pair.1 ∷ [])) (λ fault. numbers ≡ Err fault) }
{
    let Some((word, after)) = first_word(rest) else {
        return Err(Fault::Syntax);
    };
    both(bounded_number(word), one_number(after))
}

// The numbers of a command that takes three.
fn three_numbers<
    const LEAST: u64,
    const MOST: u64,
    const NEXT_LEAST: u64,
    const NEXT_MOST: u64,
    const LAST_LEAST: u64,
    const LAST_MOST: u64,
>(
    rest: &[u8],
) -> Result<
    (
        Bounded<LEAST, MOST>,
        Bounded<NEXT_LEAST, NEXT_MOST>,
        Bounded<LAST_LEAST, LAST_MOST>,
    ),
    Fault,
>
    ensures { let numbers = numbers_of ((LEAST, MOST) ∷ (NEXT_LEAST, NEXT_MOST) ∷ (LAST_LEAST, LAST_MOST) ∷ []) (words_of rest.now) in
        MatchResult result (λ three. numbers ≡ Ok (three.0 ∷ three.1 ∷ three.2 ∷ [])) (λ fault. numbers ≡ Err fault) }
{
    let Some((word, after)) = first_word(rest) else {
        return Err(Fault::Syntax);
    };
    let (number, (next, last)) = both(bounded_number(word), two_numbers(after))?;
    Ok((number, next, last))
}

// What two parts of a line say, unless one is refused.
fn both<A: Drop, B: Drop>(first: Result<A, Fault>, other: Result<B, Fault>) -> Result<(A, B), Fault>
    ensures { result ≡ both_of first other }
{
    match (first, other) {
        (Ok(first), Ok(other)) => Ok((first, other)),
        (Ok(_), Err(fault)) => Err(fault),
        (Err(fault), Ok(_)) => Err(fault),
        (Err(fault), Err(other)) => Err(first_refusal(fault, other)),
    }
}

// The refusal of two that comes first: Syntax comes before Range.
fn first_refusal(fault: Fault, other: Fault) -> Fault
    ensures { result ≡ first_of fault other }
{
    match fault {
        Fault::Syntax => fault,
        _ => other,
    }
}

// The number in a range that a word is: Syntax where it is no number, and Range where it is out of the range.
fn bounded_number<const LEAST: u64, const MOST: u64>(
    word: &[u8],
) -> Result<Bounded<LEAST, MOST>, Fault>
    ensures { result ≡ number_within LEAST MOST (number_of word.now) }
{
    match number(word) {
        Ok(number) => Bounded::new(number).ok_or(Fault::Range),
        Err(fault) => Err(fault),
    }
}

/// A line of more than 257 bytes is Syntax, whatever it holds. So its first 258 bytes say as much
/// as all of it.
pub fn line_laws()
    ensures { (line : List ℕ) → 257 < length line → command_of line ≡ Err Fault.Syntax }
{}
