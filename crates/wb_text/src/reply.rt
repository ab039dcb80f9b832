//! Replies of a script, and their text.

ghost use Rattle.std.specs.Prelude.{◌≡◌, ◌+◌, ◌≤◌, ◌++◌, length};
ghost use Rattle.arrayvec.specs.ArrayVec.{array_vec_len};
ghost use Rattle.wb_text.specs.Text.{line};
ghost use Rattle.wb_text.specs.Reply.{text_of, EndsWithLineFeed, HasText, refusal_text, load_text};
ghost use Rattle.wb_text.specs.Reply.{state_text, row_text, rows_text, control_text, entry_text, where_text, memory_text, all_words_text};
ghost use Rattle.wb_text.specs.Reply.{bytes_text, console_text, register_writer_text, writer_text, kind_text, event_text, log_text};

use crate::bounded::{EntryNumber, LineNumber, RegisterNumber};
use crate::devices::{Devices, push_devices};
use crate::jumps::push_jumps;
use crate::lists::{Timed, push_finds, push_timed};
use crate::memory::Words;
use crate::text::{
    Text, flag, push_byte, push_decimal, push_field, push_number, push_register, push_text,
    push_word,
};
use crate::trace::push_steps;
use arrayvec::ArrayVec;
use input_log::{Event, Kind};
use r3k_machine::{Jump, Traced};
use refusal::Fault;

/// A load that has not landed: its register and the value.
#[derive(Clone, Copy, Debug, PartialEq, Eq)]
pub struct Load {
    pub register: u8,
    pub value: u32,
}

/// What `regs` shows of the processor.
#[derive(Clone, Copy, Debug, PartialEq, Eq)]
pub struct Registers {
    pub pc: u32,
    pub next_pc: u32,
    pub hi: u32,
    pub lo: u32,
    /// Whether the instruction at `pc` stands in a delay slot.
    pub delay: bool,
    /// The load slot.
    pub load: Option<Load>,
    pub registers: [u32; 32],
}

/// What `cp0` shows of the processor.
#[derive(Clone, Copy, Debug, PartialEq, Eq)]
pub struct ControlRegisters {
    pub index: u32,
    pub random: u32,
    pub entry_lo: u32,
    pub context: u32,
    pub bad_vaddr: u32,
    pub entry_hi: u32,
    pub status: u32,
    pub cause: u32,
    pub epc: u32,
    pub prid: u32,
}

/// Where an address leads.
#[derive(Clone, Copy, Debug, PartialEq, Eq)]
pub enum Where {
    /// To a physical address that is cacheable.
    Cached(u32),
    /// To one that is not.
    Uncached(u32),
    /// To an address error.
    AddressError,
    /// To a miss at the vector for user misses.
    Refill,
    /// To a miss, or to an entry that is not valid, at the general vector.
    Miss,
}

/// What wrote a word of memory last.
#[derive(Clone, Copy, Debug, PartialEq, Eq)]
pub enum Writer {
    /// A step.
    Step(u64),
    /// No step, but the image sets the word.
    Image,
    /// No step, and the image does not set the word.
    Never,
}

/// The reply to a command.
#[derive(Debug, Drop)]
pub enum Reply {
    /// The position, of `pos`, `goto`, `step`, `back` and `visit`.
    Position(u64),
    /// The registers, of `regs`.
    Registers(Registers),
    /// A register, of `reg`.
    Register {
        number: RegisterNumber,
        value: u32,
    },
    /// The control registers, of `cp0`.
    Control(ControlRegisters),
    /// A translation entry, of `tlb`.
    Entry {
        number: EntryNumber,
        hi: u32,
        lo: u32,
    },
    /// Where an address leads, of `where`.
    Where(Where),
    /// Words of memory, of `mem`.
    Memory(Words),
    /// Words of memory with their texts as instructions, of `dis`.
    Instructions(Words),
    /// How many bytes were sent on a line, and some of them, of `console`.
    Console {
        line: LineNumber,
        total: u64,
        bytes: ArrayVec<u8, 256>,
    },
    /// The step that sent a byte, of `find`.
    Found(u64),
    /// The last writer of a word, of `writer`.
    Writer(Writer),
    /// The last steps that stored into a word, with the word after each, of `stores`.
    Stores(ArrayVec<Timed, 32>),
    /// The steps that sent bytes, of which `first` is the first one's place, of `finds`.
    Finds {
        first: u64,
        steps: ArrayVec<u64, 64>,
    },
    /// The last step that wrote a register, if one did, of `regwriter`.
    RegisterWriter(Option<u64>),
    /// The PC at positions, of `pcs`.
    Pcs(ArrayVec<Timed, 64>),
    /// What the devices hold, of `devices`.
    Devices(Devices),
    /// What steps did, of which `first` is the first one's number, of `trace`.
    Trace {
        first: u64,
        steps: ArrayVec<Traced, 64>,
    },
    /// The steps that transferred control, and the position from which to ask on, of `jumps`.
    Jumps {
        next: u64,
        jumps: ArrayVec<Jump, 64>,
    },
    /// How many events the log has, and some of them, of which `first` is the first one's number,
    /// of `log`.
    Log {
        total: u64,
        first: u64,
        events: ArrayVec<Event, 32>,
    },
    /// The number that an event has now, of `add`, `ferr`, `wire`, `set` and `move`.
    Event(u64),
    /// How many events the log has left, of `del` and `erase`.
    Left(u64),
    /// That a word was set, of `patch`.
    Patched,
    /// No text, of `quit`.
    Nothing,
    /// A refusal.
    Fault(Fault),
}

/// The text of a reply, each of its lines with a line feed.
pub fn reply_text(reply: &Reply) -> Text
    ensures { result.items ≡ text_of reply.now }
{
    let mut text = ArrayVec::new();
    match reply {
        Reply::Position(position) => push_number(&mut text, b"pos ", *position),
        Reply::Registers(registers) => {
            push_state(&mut text, registers);
            push_rows(&mut text, &registers.registers);
        }
        Reply::Register { number, value } => {
            push_register(&mut text, number.get(), *value);
            push_text(&mut text, b"\n");
        }
        Reply::Control(control) => push_control(&mut text, control),
        Reply::Entry { number, hi, lo } => push_entry(&mut text, number.get(), *hi, *lo),
        Reply::Where(place) => push_where(&mut text, *place),
        Reply::Memory(words) => push_words(&mut text, words, false),
        Reply::Instructions(words) => push_words(&mut text, words, true),
        Reply::Console { line, total, bytes } => {
            push_console(&mut text, line.get(), *total, bytes);
        }
        Reply::Found(step) => push_number(&mut text, b"find ", *step),
        Reply::Writer(writer) => push_writer(&mut text, *writer),
        Reply::Stores(stores) => push_timed(&mut text, b"stores ", stores),
        Reply::Finds { first, steps } => push_finds(&mut text, *first, steps),
        Reply::RegisterWriter(step) => push_register_writer(&mut text, *step),
        Reply::Pcs(pcs) => push_timed(&mut text, b"pcs ", pcs),
        Reply::Devices(devices) => push_devices(&mut text, devices),
        Reply::Trace { first, steps } => push_steps(&mut text, *first, steps),
        Reply::Jumps { next, jumps } => push_jumps(&mut text, *next, jumps),
        Reply::Log {
            total,
            first,
            events,
        } => push_log(&mut text, *total, *first, events),
        Reply::Event(number) => push_number(&mut text, b"event ", *number),
        Reply::Left(total) => push_number(&mut text, b"log ", *total),
        Reply::Patched => push_text(&mut text, b"ok\n"),
        Reply::Nothing => {}
        Reply::Fault(fault) => {
            push_text(&mut text, refusal(*fault));
            push_text(&mut text, b"\n");
        }
    }
    text
}

// The text of a refusal, without a line feed.
fn refusal(fault: Fault) -> &'static [u8]
    ensures text { result.now ≡ refusal_text fault }
    ensures short { length result.now ≤ 17 }
{
    match fault {
        Fault::Memory => b"error 1 Memory",
        Fault::Syntax => b"error 2 Syntax",
        Fault::Range => b"error 3 Range",
        Fault::NoEvent => b"error 4 NoEvent",
        Fault::Unaligned => b"error 5 Unaligned",
        Fault::NotMemory => b"error 6 NotMemory",
        Fault::TooFar => b"error 7 TooFar",
        Fault::NotFound => b"error 8 NotFound",
    }
}

// Appends the line of all but the 32 registers.
fn push_state(text: &mut Text, registers: &Registers)
    requires { array_vec_len text.old ≤ 3000 }
    ensures items { text.new.items ≡ text.old.items ++ line (state_text registers.now) }
    ensures room { array_vec_len text.new ≤ array_vec_len text.old + 200 }
{
    push_field(text, b"pc ", registers.pc);
    push_field(text, b" next ", registers.next_pc);
    push_field(text, b" hi ", registers.hi);
    push_field(text, b" lo ", registers.lo);
    push_text(text, b" delay ");
    push_text(text, flag(registers.delay));
    push_text(text, b" load ");
    push_load(text, registers.load);
    push_text(text, b"\n");
}

// Appends the load slot.
fn push_load(text: &mut Text, load: Option<Load>)
    requires { array_vec_len text.old ≤ 4000 }
    ensures items { text.new.items ≡ text.old.items ++ load_text load }
    ensures room { array_vec_len text.new ≤ array_vec_len text.old + 32 }
{
    match load {
        None => push_text(text, b"none"),
        Some(load) => push_register(text, u64::from(load.register), load.value),
    }
}

// Appends the line of the control registers.
fn push_control(text: &mut Text, control: &ControlRegisters)
    requires { array_vec_len text.old ≤ 3000 }
    ensures { text.new.items ≡ text.old.items ++ line (control_text control.now) }
{
    push_field(text, b"index ", control.index);
    push_field(text, b" random ", control.random);
    push_field(text, b" entrylo ", control.entry_lo);
    push_field(text, b" context ", control.context);
    push_field(text, b" badvaddr ", control.bad_vaddr);
    push_field(text, b" entryhi ", control.entry_hi);
    push_field(text, b" status ", control.status);
    push_field(text, b" cause ", control.cause);
    push_field(text, b" epc ", control.epc);
    push_field(text, b" prid ", control.prid);
    push_text(text, b"\n");
}

// Appends the eight lines of the 32 registers.
fn push_rows(text: &mut Text, registers: &[u32; 32])
    requires { array_vec_len text.old ≤ 3200 }
    ensures { text.new.items ≡ text.old.items ++ rows_text registers.now 8 }
{
    for row in 0..8 {
        push_row(text, registers, 4 * row);
    }
}

// Appends the line of four registers, from `first` on.
fn push_row(text: &mut Text, registers: &[u32; 32], first: usize)
    requires inside { first ≤ 28 }
    requires room { array_vec_len text.old ≤ 4000 }
    ensures items { text.new.items ≡ text.old.items ++ line (row_text registers.now first) }
    ensures room { array_vec_len text.new ≤ array_vec_len text.old + 70 }
{
    push_text(text, b"r");
    push_decimal(text, first as u64);
    push_text(text, b" ");
    push_word(text, registers[first]);
    push_text(text, b" ");
    push_word(text, registers[first + 1]);
    push_text(text, b" ");
    push_word(text, registers[first + 2]);
    push_text(text, b" ");
    push_word(text, registers[first + 3]);
    push_text(text, b"\n");
}

// Appends the line of a translation entry.
fn push_entry(text: &mut Text, number: u64, hi: u32, lo: u32)
    requires { array_vec_len text.old ≤ 1000 }
    ensures { text.new.items ≡ text.old.items ++ line (entry_text number hi lo) }
{
    push_text(text, b"tlb ");
    push_decimal(text, number);
    push_field(text, b" ", hi);
    push_field(text, b" ", lo);
    push_text(text, b"\n");
}

// Appends the line that shows where an address leads.
fn push_where(text: &mut Text, place: Where)
    requires { array_vec_len text.old ≤ 1000 }
    ensures { text.new.items ≡ text.old.items ++ line (where_text place) }
{
    push_text(text, b"where ");
    match place {
        Where::Cached(physical) => {
            push_word(text, physical);
            push_text(text, b" cached\n");
        }
        Where::Uncached(physical) => {
            push_word(text, physical);
            push_text(text, b" uncached\n");
        }
        Where::AddressError => push_text(text, b"adel\n"),
        Where::Refill => push_text(text, b"tlbl refill\n"),
        Where::Miss => push_text(text, b"tlbl\n"),
    }
}

// Appends the lines of words of memory, with their texts as instructions or without.
fn push_words(text: &mut Text, words: &Words, instructions: bool)
    requires { array_vec_len text.old ≤ 1000 }
    ensures { text.new.items ≡ text.old.items ++ all_words_text instructions words.now }
{
    for (place, word) in words.words.iter().enumerate() {
        push_memory(
            text,
            words.address.wrapping_add(4 * place as u32),
            *word,
            instructions,
        );
    }
}

// Appends the line of a word of memory, with its text as an instruction or without.
fn push_memory(text: &mut Text, address: u32, word: u32, instruction: bool)
    requires { array_vec_len text.old ≤ 4000 }
    ensures items { text.new.items ≡ text.old.items ++ line (memory_text instruction address word) }
    ensures room { array_vec_len text.new ≤ array_vec_len text.old + 63 }
{
    push_word(text, address);
    push_field(text, b" ", word);
    if instruction {
        push_text(text, b" ");
        push_text(text, r3k_disasm::text(address, word).as_bytes());
    }
    push_text(text, b"\n");
}

// Appends the reply that shows how many bytes were sent on a line of the serial part, with some of them.
fn push_console(text: &mut Text, number: u64, total: u64, bytes: &[u8])
    requires few { length bytes.now ≤ 256 }
    requires room { array_vec_len text.old ≤ 1000 }
    ensures { text.new.items ≡ text.old.items ++ line (console_text number total bytes.now) }
{
    push_text(text, b"console ");
    push_decimal(text, number);
    push_text(text, b" ");
    push_decimal(text, total);
    push_text(text, b" ");
    push_bytes(text, bytes);
    push_text(text, b"\n");
}

// Appends bytes, or `none`.
fn push_bytes(text: &mut Text, bytes: &[u8])
    requires few { length bytes.now ≤ 256 }
    requires room { array_vec_len text.old ≤ 3000 }
    ensures items { text.new.items ≡ text.old.items ++ bytes_text bytes.now }
    ensures room { array_vec_len text.new ≤ array_vec_len text.old + 520 }
{
    if bytes.is_empty() {
        push_text(text, b"none");
        return;
    }
    for byte in bytes {
        push_byte(text, *byte);
    }
}

// Appends the line of the last writer of a word.
fn push_writer(text: &mut Text, writer: Writer)
    requires { array_vec_len text.old ≤ 1000 }
    ensures { text.new.items ≡ text.old.items ++ line (writer_text writer) }
{
    match writer {
        Writer::Step(step) => push_number(text, b"writer ", step),
        Writer::Image => push_text(text, b"writer image\n"),
        Writer::Never => push_text(text, b"writer never\n"),
    }
}

// Appends the line of the last step that wrote a register.
fn push_register_writer(text: &mut Text, step: Option<u64>)
    requires { array_vec_len text.old ≤ 1000 }
    ensures { text.new.items ≡ text.old.items ++ line (register_writer_text step) }
{
    match step {
        Some(step) => push_number(text, b"regwriter ", step),
        None => push_text(text, b"regwriter never\n"),
    }
}

// Appends the line that shows how many events the log has, and the lines of some of them.
fn push_log(text: &mut Text, total: u64, first: u64, events: &[Event])
    requires few { length events.now ≤ 32 }
    requires room { array_vec_len text.old ≤ 1000 }
    ensures { text.new.items ≡ text.old.items ++ log_text total first events.now }
{
    push_number(text, b"log ", total);
    let mut number = first;
    for event in events {
        push_event(text, number, *event);
        number = number.wrapping_add(1);
    }
}

// Appends the line of an event of the log.
fn push_event(text: &mut Text, number: u64, event: Event)
    requires { array_vec_len text.old ≤ 4000 }
    ensures items { text.new.items ≡ text.old.items ++ line (event_text number event) }
    ensures room { array_vec_len text.new ≤ array_vec_len text.old + 76 }
{
    push_decimal(text, number);
    push_text(text, b" ");
    push_decimal(text, event.time);
    push_text(text, b" ");
    push_decimal(text, u64::from(event.line));
    push_text(text, b" 0x");
    push_byte(text, event.byte);
    push_text(text, kind_text(event.kind));
    push_text(text, b"\n");
}

// What is said of a kind.
fn kind_text(kind: Kind) -> &'static [u8]
    ensures text { result.now ≡ kind_text kind }
    ensures short { length result.now ≤ 8 }
{
    match kind {
        Kind::Byte => b"",
        Kind::Framing => b" framing",
        Kind::Wire => b" wire",
    }
}

/// Every reply has a text that ends with a line feed, except that of `quit` and one that shows no word.
pub fn reply_laws()
    ensures { (reply : Reply) → HasText reply → EndsWithLineFeed (text_of reply) }
{}
