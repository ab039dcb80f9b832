//! The text of what the devices hold.

ghost use Rattle.std.specs.Prelude.{◌≡◌, ◌+◌, ◌*◌, ◌≤◌, ◌++◌, flat_map, length};
ghost use Rattle.arrayvec.specs.ArrayVec.{array_vec_len};
ghost use Rattle.wb_text.specs.Text.{byte_text, line, numbered};
ghost use Rattle.wb_text.specs.Devices.{board_text, clock_text, devices_text, line_text, serial_text, silo_text, ticks_text, waiting_text};

use crate::text::{Text, flag, push_byte, push_decimal, push_field, push_text};
use arrayvec::ArrayVec;

/// The registers of the serial part as reads would give them, the line that a byte was last sent on, and for how many ticks a line
/// sends a byte.
#[derive(Clone, Copy, Debug, PartialEq, Eq)]
pub struct Serial {
    pub csr: u32,
    pub rbuf: u32,
    pub tcr: u32,
    pub msr: u32,
    pub last_served: u8,
    pub byte_time: u16,
}

/// A line of the serial part.
#[derive(Clone, Copy, Debug, PartialEq, Eq)]
pub struct Line {
    /// Whether its receiver is on.
    pub receiver: bool,
    /// Whether a byte was lost since the last one stored.
    pub lost: bool,
    /// For how many ticks it still sends.
    pub busy: u16,
}

/// The clock: its registers as reads would give them, and how many ticks there are up to the end of the second and of the period.
#[derive(Clone, Copy, Debug, PartialEq, Eq)]
pub struct Clock {
    pub interrupt: bool,
    pub second: Option<u32>,
    pub period: Option<u32>,
    pub registers: [u8; 64],
}

/// The board: its control and status register, which has the enables and the lines, and whether it interrupts.
#[derive(Clone, Copy, Debug, PartialEq, Eq)]
pub struct Board {
    pub csr: u32,
    pub interrupt: bool,
}

/// What `devices` shows.
#[derive(Debug, Drop, PartialEq, Eq)]
pub struct Devices {
    pub serial: Serial,
    pub lines: [Line; 4],
    /// The words that reads of RBUF would give, one after the other.
    pub silo: ArrayVec<u32, 64>,
    pub clock: Clock,
    pub board: Board,
}

/// Appends the lines of the devices.
pub(crate) fn push_devices(text: &mut Text, devices: &Devices)
    requires { array_vec_len text.old ≤ 1000 }
    ensures { text.new.items ≡ text.old.items ++ devices_text devices.now }
{
    push_serial(text, devices.serial);
    push_lines(text, &devices.lines);
    push_silo(text, &devices.silo);
    push_clock(text, &devices.clock);
    push_board(text, devices.board);
}

// Appends the line of the serial part.
fn push_serial(text: &mut Text, serial: Serial)
    requires { array_vec_len text.old ≤ 2000 }
    ensures items { text.new.items ≡ text.old.items ++ line (serial_text serial) }
    ensures room { array_vec_len text.new ≤ array_vec_len text.old + 150 }
{
    push_field(text, b"serial csr ", serial.csr);
    push_field(text, b" rbuf ", serial.rbuf);
    push_field(text, b" tcr ", serial.tcr);
    push_field(text, b" msr ", serial.msr);
    push_text(text, b" served ");
    push_decimal(text, u64::from(serial.last_served));
    push_text(text, b" time ");
    push_decimal(text, u64::from(serial.byte_time));
    push_text(text, b"\n");
}

// Appends the lines of the serial part's lines.
fn push_lines(text: &mut Text, lines: &[Line; 4])
    requires { array_vec_len text.old ≤ 2000 }
    ensures items { text.new.items ≡ text.old.items ++ numbered line_text 0 lines.now }
    ensures room { array_vec_len text.new ≤ array_vec_len text.old + 400 }
{
    let mut number = 0u64;
    for line in lines {
        push_line(text, number, *line);
        number = number.wrapping_add(1);
    }
}

// Appends the line of a line of the serial part.
fn push_line(text: &mut Text, number: u64, state: Line)
    requires { array_vec_len text.old ≤ 3000 }
    ensures items { text.new.items ≡ text.old.items ++ line (line_text number state) }
    ensures room { array_vec_len text.new ≤ array_vec_len text.old + 100 }
{
    push_text(text, b"line ");
    push_decimal(text, number);
    push_text(text, b" receiver ");
    push_text(text, flag(state.receiver));
    push_text(text, b" lost ");
    push_text(text, flag(state.lost));
    push_text(text, b" busy ");
    push_decimal(text, u64::from(state.busy));
    push_text(text, b"\n");
}

// Appends the line of the silo.
fn push_silo(text: &mut Text, words: &[u32])
    requires few { length words.now ≤ 64 }
    requires room { array_vec_len text.old ≤ 3000 }
    ensures items { text.new.items ≡ text.old.items ++ line (silo_text words.now) }
    ensures room { array_vec_len text.new ≤ array_vec_len text.old + 800 }
{
    push_text(text, b"silo ");
    push_decimal(text, words.len() as u64);
    push_waiting(text, words);
    push_text(text, b"\n");
}

// Appends the words of the silo.
fn push_waiting(text: &mut Text, words: &[u32])
    requires few { length words.now ≤ 64 }
    requires room { array_vec_len text.old ≤ 4000 }
    ensures items { text.new.items ≡ text.old.items ++ flat_map waiting_text words.now }
    ensures room { array_vec_len text.new ≤ array_vec_len text.old + 11 * length words.now }
{
    for word in words {
        push_field(text, b" ", *word);
    }
}

// Appends the line of the clock.
fn push_clock(text: &mut Text, clock: &Clock)
    requires { array_vec_len text.old ≤ 5000 }
    ensures items { text.new.items ≡ text.old.items ++ line (clock_text clock.now) }
    ensures room { array_vec_len text.new ≤ array_vec_len text.old + 300 }
{
    push_text(text, b"clock interrupt ");
    push_text(text, flag(clock.interrupt));
    push_text(text, b" second ");
    push_ticks(text, clock.second);
    push_text(text, b" period ");
    push_ticks(text, clock.period);
    push_text(text, b" registers ");
    push_registers(text, &clock.registers);
    push_text(text, b"\n");
}

// Appends a number of ticks, or `none`.
fn push_ticks(text: &mut Text, ticks: Option<u32>)
    requires { array_vec_len text.old ≤ 10000 }
    ensures items { text.new.items ≡ text.old.items ++ ticks_text ticks }
    ensures room { array_vec_len text.new ≤ array_vec_len text.old + 20 }
{
    match ticks {
        None => push_text(text, b"none"),
        Some(ticks) => push_decimal(text, u64::from(ticks)),
    }
}

// Appends the bytes of the clock's registers.
fn push_registers(text: &mut Text, registers: &[u8; 64])
    requires { array_vec_len text.old ≤ 10000 }
    ensures items { text.new.items ≡ text.old.items ++ flat_map byte_text registers.now }
    ensures room { array_vec_len text.new ≤ array_vec_len text.old + 128 }
{
    for register in registers {
        push_byte(text, *register);
    }
}

// Appends the line of the board.
fn push_board(text: &mut Text, board: Board)
    requires { array_vec_len text.old ≤ 6000 }
    ensures { text.new.items ≡ text.old.items ++ line (board_text board) }
{
    push_field(text, b"board csr ", board.csr);
    push_text(text, b" interrupt ");
    push_text(text, flag(board.interrupt));
    push_text(text, b"\n");
}
