//! Runs of which one read or one write is upset, at each place.
ghost use Rattle.std.specs.Prelude.{◌≤◌};
ghost use Rattle.wb_options.specs.Options.{max_size};

use crate::same::same_at;
use samples::{ECHO, LOAD_SLOT};
use std::alloc::{AllocError, Global};
use std::process::Abort;
use std::test::Fail;
use workbench::{Kind, Options, Plan, Upset, serve, status};

// The script of the edited echo, and its replies, a line for each of its lines.
const SCRIPT: &[u8] =
    b"goto 256\nwriter 0x100\nwriter 0x104\nconsole 0 0 8\nadd 70 0 0x41\nwriter 0x104\nwriter 0x100\n\
console 0 0 8\nfind 0 0\nfind 0 1\n";

const REPLIES: &[u8] =
    b"pos 256\nwriter 253\nwriter never\nconsole 0 0 none\nevent 0\nwriter 81\nwriter 253\n\
console 0 1 41\nfind 83\nerror 8 NotFound\n";

// How many line feeds stand among bytes.
fn feeds(bytes: &[u8]) -> usize {
    bytes.iter().filter(|byte| **byte == b'\n').count()
}

// The first `count` replies.
fn first_replies(count: usize) -> &'static [u8] {
    let mut left = count;
    for (place, byte) in REPLIES.iter().enumerate() {
        if left == 0 {
            return &REPLIES[..place];
        }
        if *byte == b'\n' {
            left -= 1;
        }
    }
    REPLIES
}

// The echo program and that script.
fn edited_echo(alloc: Global) -> Result<Vec<u8>, AllocError> {
    let mut input = Vec::from_slice(alloc, ECHO.as_bytes())?;
    input.extend_from_slice(SCRIPT)?;
    Ok(input)
}

// Serves an input and compares the status and what was written.
fn ends(
    rt: &(impl Abort + AllocGlobal),
    place: usize,
    options: Options,
    reader: &mut Plan,
    writer: &mut Plan,
    wants: (u8, &[u8]),
) {
    let outcome = serve::<16, 64, Plan, Plan>(rt.alloc(), options, reader, writer);
    same_at(rt, &place, &(status(&outcome), writer.written()), &wants);
}

fn options(kind: Kind, size: u32, log_size: u32) -> Options
    requires size { size ≤ max_size }
    requires log { log_size ≤ max_size }
{
    Options {
        kind,
        size,
        log_size,
    }
}

/// A read fails, byte by byte: the replies of the complete lines before it are out.
#[test]
fn each_read_failing(rt: HostRuntime) -> Result<(), Fail> {
    let alloc = rt.alloc();
    let front = ECHO.len();
    let asked = options(Kind::Source, front as u32, 0);
    let input = edited_echo(alloc)?;
    for good in front..input.len() + 1 {
        let mut reader = Plan::new(alloc, &input, 1, 0)?;
        reader.fail_read(good as u64);
        let mut writer = Plan::new(alloc, &[], 4096, 4096)?;
        let out = first_replies(feeds(&input[front..good]));
        ends(&rt, good, asked, &mut reader, &mut writer, (3, out));
    }
    // In large pieces the reads are that of the source, that of the script, and that of the end.
    for (good, out) in [(0, &b""[..]), (1, b""), (2, REPLIES)] {
        let mut reader = Plan::new(alloc, &input, 4096, 0)?;
        reader.fail_read(good as u64);
        let mut writer = Plan::new(alloc, &[], 4096, 4096)?;
        ends(&rt, good, asked, &mut reader, &mut writer, (3, out));
    }
    Ok(())
}

/// A write fails or takes no byte: what went out is a front of the replies, and nothing follows it.
#[test]
fn each_write_upset(rt: HostRuntime) -> Result<(), Fail> {
    let alloc = rt.alloc();
    let asked = options(Kind::Source, ECHO.len() as u32, 0);
    let input = edited_echo(alloc)?;
    for upset in [Upset::Fails, Upset::TakesNone] {
        for good in 0..feeds(REPLIES) {
            let mut reader = Plan::new(alloc, &input, 4096, 0)?;
            let mut writer = Plan::new(alloc, &[], 4096, 4096)?;
            writer.upset_write(good as u64, upset);
            let wants = (3, first_replies(good));
            ends(&rt, good, asked, &mut reader, &mut writer, wants);
        }
        for good in 0..REPLIES.len() {
            let mut reader = Plan::new(alloc, &input, 4096, 0)?;
            let mut writer = Plan::new(alloc, &[], 1, 4096)?;
            writer.upset_write(good as u64, upset);
            let wants = (3, &REPLIES[..good]);
            ends(&rt, good, asked, &mut reader, &mut writer, wants);
        }
    }
    Ok(())
}

/// A writer that takes one byte a time gets the same, and one that is full takes none of the rest.
#[test]
fn narrow_writers(rt: HostRuntime) -> Result<(), Fail> {
    let alloc = rt.alloc();
    let asked = options(Kind::Source, ECHO.len() as u32, 0);
    let input = edited_echo(alloc)?;
    let all = REPLIES.len();
    for (piece, room, fault) in [
        (1, all, 0),
        (4, all, 0),
        (4, all - 1, 3),
        (4, 9, 3),
        (4, 0, 3),
    ] {
        let mut reader = Plan::new(alloc, &input, 3, 0)?;
        let mut writer = Plan::new(alloc, &[], piece, room)?;
        let wants = (fault, &REPLIES[..room]);
        ends(&rt, room, asked, &mut reader, &mut writer, wants);
    }
    Ok(())
}

/// A reader that gives blanks for ever: a read fault after 2^20 reads, and nothing is written.
#[test]
fn blanks_for_ever(rt: HostRuntime) -> Result<(), Fail> {
    let mut reader = Plan::new(rt.alloc(), b" ", 4096, 0)?;
    reader.give_for_ever();
    let mut writer = Plan::new(rt.alloc(), &[], 4096, 16)?;
    let asked = options(Kind::Rom, 0, 0);
    ends(&rt, 0, asked, &mut reader, &mut writer, (3, b""));
    Ok(())
}

// The nine lines of the load slot at position 2.
const REGISTERS: &[u8] = b"pos 2\n\
pc 0xbfc00008 next 0xbfc0000c hi 0x00000000 lo 0x00000000 delay 0 load r2 0x00000005\n\
r0 0x00000000 0xa0000000 0x00000000 0x00000000\n\
r4 0x00000000 0x00000000 0x00000000 0x00000000\n\
r8 0x00000000 0x00000000 0x00000000 0x00000000\n\
r12 0x00000000 0x00000000 0x00000000 0x00000000\n\
r16 0x00000000 0x00000000 0x00000000 0x00000000\n\
r20 0x00000000 0x00000000 0x00000000 0x00000000\n\
r24 0x00000000 0x00000000 0x00000000 0x00000000\n\
r28 0x00000000 0x00000000 0x00000000 0x00000000\n";

// What is out where the script `goto 2`, `regs` ends after `len` bytes.
fn cut(len: usize) -> &'static [u8] {
    match len {
        0 => b"",
        1..=5 => b"error 2 Syntax\n",
        6..=7 => b"pos 2\n",
        8..=10 => b"pos 2\nerror 2 Syntax\n",
        _ => REGISTERS,
    }
}

/// A script that is cut after each of its bytes, by the end and by a read that fails.
#[test]
fn cut_scripts(rt: HostRuntime) -> Result<(), Fail> {
    let alloc = rt.alloc();
    let asked = options(Kind::Image, 68, 0);
    let mut input = Vec::from_slice(alloc, &LOAD_SLOT)?;
    input.extend_from_slice(b"goto 2\nregs")?;
    for len in 0..12 {
        let mut reader = Plan::new(alloc, &input[..68 + len], 5, 0)?;
        let mut writer = Plan::new(alloc, &[], 4096, 4096)?;
        ends(&rt, len, asked, &mut reader, &mut writer, (0, cut(len)));
        let mut reader = Plan::new(alloc, &input[..68 + len], 1, 0)?;
        reader.fail_read(68 + len as u64);
        let mut writer = Plan::new(alloc, &[], 4096, 4096)?;
        let out: &[u8] = if len < 7 { b"" } else { b"pos 2\n" };
        ends(&rt, len, asked, &mut reader, &mut writer, (3, out));
    }
    Ok(())
}

/// Input that ends, or a read that fails, within the image, the log and the script.
#[test]
fn cut_fronts(rt: HostRuntime) -> Result<(), Fail> {
    let alloc = rt.alloc();
    let asked = options(Kind::Image, 68, 18);
    let mut input = Vec::from_slice(alloc, &LOAD_SLOT)?;
    input.extend_from_slice(b"R3KLOG1\n\x01\0\0\0\x46\0\0\0\0\x41pos\n")?;
    for len in 0..91 {
        let mut reader = Plan::new(alloc, &input, 1, 0)?;
        reader.fail_read(len as u64);
        let mut writer = Plan::new(alloc, &[], 4096, 64)?;
        let out: &[u8] = if len < 90 { b"" } else { b"pos 0\n" };
        ends(&rt, len, asked, &mut reader, &mut writer, (3, out));
        if len < 86 {
            let mut reader = Plan::new(alloc, &input[..len], 7, 0)?;
            let mut writer = Plan::new(alloc, &[], 4096, 64)?;
            ends(&rt, len, asked, &mut reader, &mut writer, (3, b""));
        }
    }
    Ok(())
}
