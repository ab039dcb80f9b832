//! Whole writes to a sink.
ghost use Rattle.std.specs.Prelude.{List, MatchResult};
ghost use Rattle.wb_io.specs.Calls.{Call, TakesAll, TakesFront, Writes};

use crate::sink::Sink;
use crate::source::Failed;

/// Writes all of the bytes. It fails, and tries no more, where a call fails or takes none of them.
pub fn write_whole<W: Sink>(writer: &mut W, bytes: &[u8]) -> Result<(), Failed>
    ensures { (calls : List Call)
        × Writes (W.writes writer.old) (W.writes writer.new) (W.written writer.old) (W.written writer.new) calls
        × MatchResult result (λ _. TakesAll bytes.now calls) (λ _. TakesFront bytes.now calls) }
{
    let mut rest = bytes;
    while !rest.is_empty() {
        let count = match writer.write(rest) {
            Err(_) => return Err(Failed),
            Ok(0) => return Err(Failed),
            Ok(count) => count,
        };
        let (_, after) = rest.split_at(count);
        rest = after;
    }
    Ok(())
}
