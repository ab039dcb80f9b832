//! What is shown of a processor and of a log.

ghost use Rattle.std.specs.Prelude.{◌≡◌, ◌≤◌};
ghost use Rattle.timeline.specs.Console.{part_of};
ghost use Rattle.wb_session.specs.Devices.{devices_shown, line_shown, serial_shown};
ghost use Rattle.wb_session.specs.Session.{shown, shown_control, shown_entry, shown_place, shown_writer};

use arrayvec::ArrayVec;
use cop0::Cop0;
use cop0::number::{
    BAD_VADDR, CAUSE, CONTEXT, ENTRY_HI, ENTRY_LO, EPC, INDEX, PRID, RANDOM, STATUS,
};
use dz_serial::{CSR, Dz, MSR, RBUF, SerialLine, TCR};
use input_log::Event;
use kn02_bus::Bus;
use r3k_machine::{self as machine, Core};
use tlb64::Entry;
use wb_text::devices::{Board, Clock, Devices, Line, Serial};
use wb_text::{ControlRegisters, EntryNumber, Load, Registers, Reply, Where, Writer};

/// The events from a place on, at most `count`.
pub(crate) fn events_from(events: &[Event], from: u64, count: usize) -> ArrayVec<Event, 32>
    requires { count ≤ 32 }
    ensures { result.items ≡ part_of from count events.now }
{
    let rest = events.get(from as usize..).unwrap_or(&[]);
    let mut shown = ArrayVec::new();
    // There is room for all of them.
    let _copied = shown.try_extend_from_slice(rest.get(..count).unwrap_or(rest));
    shown
}

/// What `regs` shows of a processor.
pub(crate) fn registers_of(core: &Core) -> Registers
    ensures { result ≡ shown core.now }
{
    Registers {
        pc: core.pc(),
        next_pc: core.next_pc(),
        hi: core.hi(),
        lo: core.lo(),
        delay: core.delay(),
        load: core.load().map(|load| Load {
            register: load.register(),
            value: load.value(),
        }),
        registers: *core.registers(),
    }
}

/// What `cp0` shows of the control registers.
pub(crate) fn control_of(cop0: &Cop0) -> ControlRegisters
    ensures { result ≡ shown_control cop0.now }
{
    ControlRegisters {
        index: cop0.read(INDEX),
        random: cop0.read(RANDOM),
        entry_lo: cop0.read(ENTRY_LO),
        context: cop0.read(CONTEXT),
        bad_vaddr: cop0.read(BAD_VADDR),
        entry_hi: cop0.read(ENTRY_HI),
        status: cop0.read(STATUS),
        cause: cop0.read(CAUSE),
        epc: cop0.read(EPC),
        prid: cop0.read(PRID),
    }
}

/// What `tlb` shows of a translation entry.
pub(crate) fn entry_shown(number: EntryNumber, entry: Entry) -> Reply
    ensures { result ≡ shown_entry number entry }
{
    Reply::Entry {
        number,
        hi: entry.hi,
        lo: entry.lo,
    }
}

/// What `where` shows of an address.
pub(crate) fn place_shown(place: machine::Where) -> Where
    ensures { result ≡ shown_place place }
{
    match place {
        machine::Where::Cached(physical) => Where::Cached(physical),
        machine::Where::Uncached(physical) => Where::Uncached(physical),
        machine::Where::Adel => Where::AddressError,
        machine::Where::Refill => Where::Refill,
        machine::Where::Tlbl => Where::Miss,
    }
}

/// What `writer` shows of the last writer of a word.
pub(crate) fn writer_shown(writer: timeline::Writer) -> Writer
    ensures { result ≡ shown_writer writer }
{
    match writer {
        timeline::Writer::Step(step) => Writer::Step(step),
        timeline::Writer::Image => Writer::Image,
        timeline::Writer::Never => Writer::Never,
    }
}

/// What `devices` shows of the bus.
pub(crate) fn devices_of(bus: &Bus) -> Devices
    ensures { result ≡ devices_shown bus.now }
{
    let serial = bus.serial();
    let clock = bus.clock();
    Devices {
        serial: serial_of(&serial),
        lines: [
            line_of(&serial, 0),
            line_of(&serial, 1),
            line_of(&serial, 2),
            line_of(&serial, 3),
        ],
        silo: serial.waiting(),
        clock: Clock {
            interrupt: clock.interrupts(),
            second: clock.next_second(),
            period: clock.next_period(),
            registers: clock.values(),
        },
        board: Board {
            csr: bus.csr(),
            interrupt: bus.lines().board,
        },
    }
}

// What it shows of the serial part as a whole.
fn serial_of(serial: &Dz) -> Serial
    ensures { result ≡ serial_shown serial.now }
{
    Serial {
        csr: serial.word(CSR),
        rbuf: serial.word(RBUF),
        tcr: serial.word(TCR),
        msr: serial.word(MSR),
        last_served: serial.last_served().number(),
        byte_time: serial.byte_time(),
    }
}

// What it shows of a line of the serial part.
fn line_of(serial: &Dz, number: u8) -> Line
    requires { number ≤ 3 }
    ensures { result ≡ line_shown serial.now number }
{
    let line = SerialLine::new(number);
    Line {
        receiver: serial.receives(line),
        lost: serial.has_lost(line),
        busy: serial.busy(line),
    }
}
