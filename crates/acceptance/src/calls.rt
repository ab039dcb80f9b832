//! The calls of std's readers and writers: one for each of ours, and replies are out before the next read. No clause says so, as
//! std's traits count no calls, and as reads and writes are reported apart.
ghost use Rattle.std.specs.Prelude.{◌≤◌, IfOk};

use crate::same::{same, same_at};
use std::cell::Cell;
use std::io;
use std::io::{ErrorKind, Read, Write};
use std::test::Fail;
use workbench::{Failed, FromRead, Kind, Options, Sink, Source, ToWrite, serve, status};

// What a call of std's does: it moves at most so many bytes, or it fails.
#[derive(Clone, Copy, Debug)]
enum Does {
    Moves(usize),
    Fails(ErrorKind),
}

// Each in turn. Calls fail twice running, with one kind of error and with two, and after each failure one is good.
const TURNS: [Does; 11] = [
    Does::Moves(usize::MAX),
    Does::Fails(ErrorKind::Interrupted),
    Does::Moves(1),
    Does::Fails(ErrorKind::Interrupted),
    Does::Fails(ErrorKind::Interrupted),
    Does::Moves(usize::MAX),
    Does::Fails(ErrorKind::WouldBlock),
    Does::Fails(ErrorKind::OutOfMemory),
    Does::Moves(0),
    Does::Fails(ErrorKind::UnexpectedEof),
    Does::Moves(3),
];

// What the next call does, the calls that were made, and how many bytes the last one was of.
#[derive(Drop)]
struct Wire {
    does: Cell<Does>,
    calls: Cell<u64>,
    size: Cell<usize>,
}

impl Wire {
    fn new() -> Wire {
        Wire {
            does: Cell::new(Does::Moves(0)),
            calls: Cell::new(0),
            size: Cell::new(0),
        }
    }

    // One more call, of `size` bytes.
    fn call(&self, size: usize) -> io::Result<usize>
        ensures { IfOk result (λ count. count ≤ size) }
    {
        self.calls.set(self.calls.get().saturating_add(1));
        self.size.set(size);
        match self.does.get() {
            Does::Moves(most) => Ok(size.min(most)),
            Does::Fails(kind) => Err(io::Error::from(kind)),
        }
    }

    // How many calls were made since this was last asked, and how many bytes the last one was of.
    fn made(&self) -> (u64, usize) {
        let calls = self.calls.get();
        self.calls.set(0);
        (calls, self.size.get())
    }
}

// A reader and writer of std's on a wire. What it reads is all `x`.
#[derive(Drop)]
struct OnWire<'a> {
    wire: &'a Wire,
}

impl Read for OnWire<'_> {
    fn read(&mut self, buffer: &mut [u8]) -> io::Result<usize> {
        let count = self.wire.call(buffer.len())?;
        buffer[..count].fill(b'x');
        Ok(count)
    }
}

impl Write for OnWire<'_> {
    fn write(&mut self, bytes: &[u8]) -> io::Result<usize> {
        self.wire.call(bytes.len())
    }

    fn flush(&mut self) -> io::Result<()> {
        Ok(())
    }
}

// What a call of a source or a sink answers where std's is of `size` bytes.
fn answer(does: Does, size: usize) -> Result<usize, Failed> {
    match does {
        Does::Moves(most) => Ok(size.min(most)),
        Does::Fails(_) => Err(Failed),
    }
}

/// Each call of a source, into a buffer of any size, is one of std's reader, of at most 4096 bytes: none fails without it, none
/// makes a second one, after a failure or to fill the buffer.
#[test]
fn one_read_for_each(rt: HostRuntime) -> Result<(), Fail> {
    let wire = Wire::new();
    let mut source = FromRead::new(OnWire { wire: &wire });
    let mut buffer = vec![in rt.alloc(); b'.'; 9000]?;
    for size in 0..9001usize {
        for does in TURNS {
            wire.does.set(does);
            let got = source.read(&mut buffer[..size]);
            let asked = size.min(4096);
            let wants = (answer(does, asked), (1, asked));
            same_at(&rt, &(size, does), &(got, wire.made()), &wants);
        }
    }
    Ok(())
}

/// Each call of a sink, of any size, is one of std's writer, of as many bytes.
#[test]
fn one_write_for_each(rt: HostRuntime) -> Result<(), Fail> {
    let wire = Wire::new();
    let mut sink = ToWrite::new(OnWire { wire: &wire });
    let bytes = vec![in rt.alloc(); b'x'; 9000]?;
    for size in 0..9001usize {
        for does in TURNS {
            wire.does.set(does);
            let got = sink.write(&bytes[..size]);
            let wants = (answer(does, size), (1, size));
            same_at(&rt, &(size, does), &(got, wire.made()), &wants);
        }
    }
    Ok(())
}

// A reader of std's that gives one piece a call, and puts down how many bytes are out at each.
#[derive(Drop)]
struct Watching<'a> {
    pieces: &'a [&'static [u8]],
    out: &'a Cell<usize>,
    seen: Vec<usize>,
}

impl Read for Watching<'_> {
    fn read(&mut self, buffer: &mut [u8]) -> io::Result<usize> {
        self.seen.push(self.out.get())?;
        let [piece, rest @ ..] = self.pieces else {
            return Ok(0);
        };
        self.pieces = rest;
        let count = buffer.len().min(piece.len());
        buffer[..count].copy_from_slice(&piece[..count]);
        Ok(count)
    }
}

// A writer of std's that takes at most four bytes a call, and counts them.
#[derive(Drop)]
struct Out<'a> {
    out: &'a Cell<usize>,
}

impl Write for Out<'_> {
    fn write(&mut self, bytes: &[u8]) -> io::Result<usize> {
        let count = bytes.len().min(4);
        self.out.set(self.out.get().saturating_add(count));
        Ok(count)
    }

    fn flush(&mut self) -> io::Result<()> {
        Ok(())
    }
}

/// The replies to the complete lines are out, whole, before the next read. Each has six bytes.
#[test]
fn replies_before_reads(rt: HostRuntime) -> Result<(), Fail> {
    let alloc = rt.alloc();
    let out = Cell::new(0);
    let pieces: [&'static [u8]; 5] = [
        b"pos\n",
        b"po",
        b"s\n\npos\npos",
        b"\nstep",
        b" 1\npos\npos",
    ];
    let mut reader = Watching {
        pieces: &pieces,
        out: &out,
        seen: Vec::new(alloc),
    };
    let asked = Options {
        kind: Kind::Rom,
        size: 0,
        log_size: 0,
    };
    let mut source = FromRead::new(&mut reader);
    let mut sink = ToWrite::new(Out { out: &out });
    let outcome = serve::<16, 64, FromRead<&mut Watching>, ToWrite<Out>>(
        alloc,
        asked,
        &mut source,
        &mut sink,
    );
    same(&rt, &status(&outcome), &0);
    same(
        &rt,
        &reader.seen.as_slice(),
        &[0, 6, 6, 18, 24, 36].as_slice(),
    );
    same(&rt, &out.get(), &42);
    Ok(())
}
