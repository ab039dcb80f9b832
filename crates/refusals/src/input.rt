//! What the program is asked for: the first line of its input.
ghost use Rattle.std.specs.Prelude.{◌≤◌};

use workbench::Source;

/// The most bytes of an input.
pub const ROOM: usize = 4096;

/// What is asked for.
#[derive(Clone, Copy)]
pub enum Wanted<'a> {
    /// `script SIZE LOG`: SIZE bytes of an image or a source, LOG bytes of a log, and a script follow.
    Script {
        boot: &'a [u8],
        log: &'a [u8],
        script: &'a [u8],
    },
    /// `calls`: the calls that take memory.
    Calls,
    /// `free`: those that take none.
    Free,
}

/// Reads up to the end, or as far as there is room, and gives how many bytes there are.
pub fn read_all<R: Source>(reader: &mut R, buffer: &mut [u8; ROOM]) -> usize
    ensures { result ≤ 4096 }
{
    let mut length = 0;
    for _ in 0..ROOM {
        if length >= ROOM {
            return ROOM;
        }
        match reader.read(&mut buffer[length..]) {
            Err(_) | Ok(0) => return length,
            Ok(count) => length += count,
        }
    }
    length.min(ROOM)
}

/// What an input asks for.
pub fn asked_for(input: &[u8]) -> Option<Wanted<'_>> {
    let (line, rest) = first_line(input)?;
    if line == b"calls".as_slice() {
        return Some(Wanted::Calls);
    }
    if line == b"free".as_slice() {
        return Some(Wanted::Free);
    }
    let text = std::str::from_utf8(line).ok()?;
    let (name, sizes) = text.split_once(' ')?;
    let (size, log_size) = sizes.split_once(' ')?;
    if name != "script" {
        return None;
    }
    let (boot, rest) = front(rest, size)?;
    let (log, script) = front(rest, log_size)?;
    Some(Wanted::Script { boot, log, script })
}

// The first bytes, as many as a text says, and the rest.
fn front<'a>(bytes: &'a [u8], size: &str) -> Option<(&'a [u8], &'a [u8])> {
    let size = size.parse::<usize>().ok()?;
    bytes.split_at_checked(size)
}

/// A line without its line feed, and what follows it.
pub fn first_line(bytes: &[u8]) -> Option<(&[u8], &[u8])> {
    let end = bytes.iter().position(|byte| *byte == b'\n')?;
    Some((&bytes[..end], &bytes[end + 1..]))
}
