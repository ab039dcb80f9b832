//! Readers and writers: pieces, calls that fail, and what is asked of std's.
use crate::same::{same, same_at};
use std::alloc::{AllocError, Global};
use std::io;
use std::io::{ErrorKind, Read, Write};
use std::process::Abort;
use std::test::Fail;
use workbench::{
    Failed, FromRead, Kind, Options, Order, Plan, Sink, Source, ToWrite, serve, serve_words, status,
};

const NO_IMAGE: Options = Options {
    kind: Kind::Rom,
    size: 0,
    log_size: 0,
};

#[test]
fn plan_moves_pieces(rt: HostRuntime) -> Result<(), Fail> {
    let mut plan = Plan::new(rt.alloc(), b"abcde", 2, 3)?;
    let mut buffer = *b"....";
    same(&rt, &plan.read(&mut buffer), &Ok(2));
    same(&rt, &buffer, &*b"ab..");
    same(&rt, &plan.left(), &b"cde".as_slice());
    same(&rt, &plan.write(b"xyz"), &Ok(2));
    same(&rt, &plan.write(b"xyz"), &Ok(1));
    same(&rt, &plan.write(b"xyz"), &Ok(0));
    same(&rt, &plan.written(), &b"xyx".as_slice());
    Ok(())
}

// A reader and writer of std's over memory. It counts its calls, fails at one of them alone, and moves at most `piece`
// bytes a call.
#[derive(Drop)]
struct Counting {
    input: Vec<u8>,
    given: usize,
    written: Vec<u8>,
    piece: usize,
    calls: u32,
    fails_at: u32,
}

impl Counting {
    fn new(
        alloc: Global,
        input: &[u8],
        piece: usize,
        fails_at: u32,
    ) -> Result<Counting, AllocError> {
        Ok(Counting {
            input: Vec::from_slice(alloc, input)?,
            given: 0,
            written: Vec::new(alloc),
            piece,
            calls: 0,
            fails_at,
        })
    }

    // Whether this call is to fail.
    fn fails(&mut self) -> bool {
        self.calls = self.calls.saturating_add(1);
        self.calls == self.fails_at
    }
}

impl Read for Counting {
    fn read(&mut self, buffer: &mut [u8]) -> io::Result<usize> {
        if self.fails() {
            return Err(io::Error::from(ErrorKind::Interrupted));
        }
        let left = self.input.get(self.given..).unwrap_or(&[]);
        let count = buffer.len().min(self.piece).min(left.len());
        buffer[..count].copy_from_slice(&left[..count]);
        self.given = self.given.saturating_add(count);
        Ok(count)
    }
}

impl Write for Counting {
    fn write(&mut self, bytes: &[u8]) -> io::Result<usize> {
        if self.fails() {
            return Err(io::Error::from(ErrorKind::Interrupted));
        }
        let count = bytes.len().min(self.piece);
        self.written.extend_from_slice(&bytes[..count])?;
        Ok(count)
    }

    fn flush(&mut self) -> io::Result<()> {
        Ok(())
    }
}

/// A call of the source is one call of std's reader, also where that gives less than was asked for or fails, and a call of
/// the sink one of std's writer.
#[test]
fn one_call_for_one(rt: HostRuntime) -> Result<(), Fail> {
    let alloc = rt.alloc();
    let mut reader = Counting::new(alloc, b"abcde", 2, 2)?;
    let mut buffer = *b"....";
    same(&rt, &FromRead::new(&mut reader).read(&mut buffer), &Ok(2));
    same(&rt, &buffer, &*b"ab..");
    same(&rt, &reader.calls, &1);
    same(
        &rt,
        &FromRead::new(&mut reader).read(&mut buffer),
        &Err(Failed),
    );
    same(&rt, &buffer, &*b"ab..");
    same(&rt, &reader.calls, &2);
    let mut source = FromRead::new(&mut reader);
    same(&rt, &source.read(&mut buffer), &Ok(2));
    same(&rt, &source.read(&mut buffer), &Ok(1));
    same(&rt, &source.read(&mut buffer), &Ok(0));
    let mut writer = Counting::new(alloc, b"", 2, 2)?;
    same(&rt, &ToWrite::new(&mut writer).write(b"xyz"), &Ok(2));
    same(&rt, &writer.calls, &1);
    same(&rt, &ToWrite::new(&mut writer).write(b"z"), &Err(Failed));
    same(&rt, &writer.calls, &2);
    same(&rt, &ToWrite::new(&mut writer).write(b"z"), &Ok(1));
    same(&rt, &writer.written.as_slice(), &b"xyz".as_slice());
    Ok(())
}

/// A script of 1,048,577 bytes, one more than there may be reads, in pieces of 4096.
#[test]
fn long_script(rt: HostRuntime) -> Result<(), Fail> {
    let alloc = rt.alloc();
    let mut script = vec![in alloc; b'\n'; 1_048_574]?;
    script.extend_from_slice(b"pos")?;
    let mut reader = Plan::new(alloc, &script, 4096, 0)?;
    let mut writer = Plan::new(alloc, &[], 4096, 100)?;
    let outcome = serve::<16, 64, Plan, Plan>(alloc, NO_IMAGE, &mut reader, &mut writer);
    same(&rt, &status(&outcome), &0);
    same(&rt, &writer.written(), &b"pos 0\n".as_slice());
    Ok(())
}

/// Half a line that spells `quit` is no line yet.
#[test]
fn half_a_line(rt: HostRuntime) -> Result<(), Fail> {
    let alloc = rt.alloc();
    for piece in [1, 8, 4096] {
        let mut reader = Plan::new(alloc, b"pos\nquits\npos\n", piece, 0)?;
        let mut writer = Plan::new(alloc, &[], 4096, 100)?;
        let outcome = serve::<16, 64, Plan, Plan>(alloc, NO_IMAGE, &mut reader, &mut writer);
        same(&rt, &status(&outcome), &0);
        let text = b"pos 0\nerror 2 Syntax\npos 0\n".as_slice();
        same_at(&rt, &piece, &writer.written(), &text);
    }
    Ok(())
}

/// A raw ROM that takes all 2^20 reads is too large. One byte more takes one read too many.
#[test]
fn image_of_all_reads(rt: HostRuntime) -> Result<(), Fail> {
    let input = vec![in rt.alloc(); 0u8; 1_048_577]?;
    for (size, ends, line) in [
        ("1048576", 1, "r3kwb: error 9 BadImage RawSize\n"),
        ("1048577", 3, "r3kwb: error 11 ReadFault\n"),
    ] {
        rom_ends(&rt, &input, size, ends, line)?;
    }
    Ok(())
}

// Starts the program on a raw ROM that comes byte by byte, and compares its status and the line of its fault.
fn rom_ends(
    rt: &(impl Abort + AllocGlobal),
    input: &[u8],
    size: &str,
    ends: u8,
    line: &str,
) -> Result<(), Fail> {
    let alloc = rt.alloc();
    let mut input = Plan::new(alloc, input, 1, 0)?;
    let mut output = Plan::new(alloc, &[], 4096, 64)?;
    let mut errors = Plan::new(alloc, &[], 4096, 64)?;
    let words = ["r3kwb", "--size", size];
    let status = serve_words::<16, 64, Plan, Plan, Plan>(
        alloc,
        Ok(&words),
        &mut input,
        &mut output,
        &mut errors,
        &mut Order::new(),
    );
    same_at(rt, &size, &status, &ends);
    same_at(rt, &size, &output.written().len(), &0);
    same_at(rt, &size, &errors.written(), &line.as_bytes());
    Ok(())
}
