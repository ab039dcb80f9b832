//! What ends a run, the line that reports it, and the program's status.
ghost use Rattle.std.specs.Prelude.{◌≡◌, ◌+◌, ◌≤◌, ◌++◌, length};
ghost use Rattle.arrayvec.specs.ArrayVec.{array_vec_len};
ghost use Rattle.wb_options.specs.declared.fault.RunFault.TheVariants.{Memory};
ghost use Rattle.wb_options.specs.Fault.{IsNumbered, kind_name, log_kind_name, source_kind_name, line_of};
ghost use Rattle.wb_options.specs.Fault.{run_fault_of, run_fault_of_log, run_fault_of_source, status_of};

use arrayvec::ArrayVec;
use asm_line::kind::AsmKind;
use input_log::{LogFault, LogKind};
use r3k_asm::AsmFault;
use r3k_image::{ImageFault, ImageKind};
use std::alloc::{AllocError, AllocFailed};
use thiserror::Error;
use wb_text::decimal_digits;

/// Why a run, or the reading of its options, gave no result.
#[derive(Debug, Drop, Error)]
pub enum RunFault {
    /// A growth was refused.
    #[error("out of memory")]
    Memory,
    /// The bytes are no image, or the image does not fit the machine.
    #[error("bad image: {0}")]
    BadImage(ImageKind),
    /// The bytes are no log.
    #[error("bad log: {0}")]
    BadLog(LogKind),
    /// The bytes are no source: the line that is wrong, from 1, and how.
    #[error("bad source: line {line}: {kind}")]
    BadSource { line: u64, kind: AsmKind },
    /// A read failed, the input ended too soon, or too many reads were made.
    #[error("the input could not be read")]
    ReadFault,
    /// A write failed or took no bytes.
    #[error("the output could not be written")]
    WriteFault,
    /// The program's line is wrong. The text says how.
    #[error("{0}")]
    Usage(String),
    /// Help was asked for. This is its text.
    #[error("{0}")]
    Help(String),
}

impl From<AllocError> for RunFault {
    ghost from_gives = { λ _ fault. fault ≡ Memory };

    fn from(_error: AllocError) -> RunFault {
        RunFault::Memory
    }
}

impl<T: Drop> From<AllocFailed<T>> for RunFault {
    ghost from_gives = { λ _ fault. fault ≡ Memory };

    fn from(_error: AllocFailed<T>) -> RunFault {
        RunFault::Memory
    }
}

impl From<ImageFault> for RunFault {
    ghost from_gives = { λ fault result. result ≡ run_fault_of fault };

    fn from(fault: ImageFault) -> RunFault {
        match fault {
            ImageFault::Memory => RunFault::Memory,
            ImageFault::Bad(kind) => RunFault::BadImage(kind),
        }
    }
}

impl From<LogFault> for RunFault {
    ghost from_gives = { λ fault result. result ≡ run_fault_of_log fault };

    fn from(fault: LogFault) -> RunFault {
        match fault {
            LogFault::Memory => RunFault::Memory,
            LogFault::Bad(kind) => RunFault::BadLog(kind),
        }
    }
}

impl From<AsmFault> for RunFault {
    ghost from_gives = { λ fault result. result ≡ run_fault_of_source fault };

    fn from(fault: AsmFault) -> RunFault {
        match fault {
            AsmFault::Memory => RunFault::Memory,
            AsmFault::Bad { line, kind } => RunFault::BadSource { line, kind },
        }
    }
}

/// The program's exit status: 0 where all went well and where help was asked for, 1 for a bad
/// image, log or source, 2 for a wrong line, 3 for a failed read or write, 4 for want of memory.
pub fn status(outcome: &Result<(), RunFault>) -> u8
    ensures { result ≡ status_of outcome.now }
{
    match outcome {
        Ok(()) | Err(RunFault::Help(_)) => 0,
        Err(RunFault::BadImage(_) | RunFault::BadLog(_) | RunFault::BadSource { .. }) => 1,
        Err(RunFault::Usage(_)) => 2,
        Err(RunFault::ReadFault | RunFault::WriteFault) => 3,
        Err(RunFault::Memory) => 4,
    }
}

/// The line that reports a fault that has a number, with its line feed: number, name and kind.
pub fn fault_line(fault: &RunFault) -> ArrayVec<u8, 64>
    requires { IsNumbered fault.now }
    ensures { result.items ≡ line_of fault.now }
{
    let mut line = ArrayVec::new();
    append(&mut line, b"r3kwb: error ");
    match fault {
        RunFault::Memory => append(&mut line, b"1 Memory"),
        RunFault::BadImage(kind) => {
            append(&mut line, b"9 BadImage ");
            append(&mut line, name_of(*kind));
        }
        RunFault::BadLog(kind) => {
            append(&mut line, b"10 BadLog ");
            append(&mut line, log_name_of(*kind));
        }
        RunFault::BadSource { line: number, kind } => {
            append(&mut line, b"13 BadSource ");
            append(&mut line, decimal_digits(*number).as_slice());
            append(&mut line, b" ");
            append(&mut line, source_name_of(*kind));
        }
        RunFault::ReadFault => append(&mut line, b"11 ReadFault"),
        RunFault::WriteFault => append(&mut line, b"12 WriteFault"),
        RunFault::Usage(_) | RunFault::Help(_) => {}
    }
    append(&mut line, b"\n");
    line
}

fn append(line: &mut ArrayVec<u8, 64>, text: &[u8])
    requires { array_vec_len line.old + length text.now ≤ 64 }
    ensures items { line.new.items ≡ line.old.items ++ text.now }
    ensures len { array_vec_len line.new ≡ array_vec_len line.old + length text.now }
{
    line.try_extend_from_slice(text).unwrap()
}

fn name_of(kind: ImageKind) -> &'static [u8]
    ensures name { result.now ≡ kind_name kind }
    ensures short { length result.now ≤ 10 }
{
    match kind {
        ImageKind::Magic => b"Magic",
        ImageKind::ByteTime => b"ByteTime",
        ImageKind::Unit => b"Unit",
        ImageKind::ClockStart => b"ClockStart",
        ImageKind::Segment => b"Segment",
        ImageKind::Short => b"Short",
        ImageKind::Extra => b"Extra",
        ImageKind::RawSize => b"RawSize",
        ImageKind::Pages => b"Pages",
    }
}

fn log_name_of(kind: LogKind) -> &'static [u8]
    ensures name { result.now ≡ log_kind_name kind }
    ensures short { length result.now ≤ 5 }
{
    match kind {
        LogKind::Magic => b"Magic",
        LogKind::Count => b"Count",
        LogKind::Time => b"Time",
        LogKind::Kind => b"Kind",
        LogKind::Line => b"Line",
        LogKind::Value => b"Value",
        LogKind::Short => b"Short",
        LogKind::Extra => b"Extra",
    }
}

fn source_name_of(kind: AsmKind) -> &'static [u8]
    ensures name { result.now ≡ source_kind_name kind }
    ensures short { length result.now ≤ 7 }
{
    match kind {
        AsmKind::Name => b"Name",
        AsmKind::Syntax => b"Syntax",
        AsmKind::Number => b"Number",
        AsmKind::Twice => b"Twice",
        AsmKind::Place => b"Place",
        AsmKind::Overlap => b"Overlap",
        AsmKind::Label => b"Label",
        AsmKind::Reach => b"Reach",
    }
}
