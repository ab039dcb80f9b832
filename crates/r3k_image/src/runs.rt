//! Runs of words at consecutive addresses.

ghost use Rattle.std.specs.Prelude.{◌≡◌, ◌<◌, ◌++◌, length, IfOk, OnOk};
ghost use Rattle.r3k_image.specs.Segments.{views, AreSegments, entries_from};
ghost use Rattle.r3k_image.specs.Writing.{runs_of, words_in, AreLongest};

use crate::segment::Segment;
use std::alloc::{AllocError, Global};

/// Appends words at an address: to the last run, if they follow it at once, or else as a run of their own.
pub fn push_words(
    alloc: Global,
    runs: &mut Vec<Segment>,
    address: u32,
    words: &[u32],
) -> Result<(), AllocError>
    requires some { 0 < length words.now }
    requires longest { AreLongest (views runs.old.items) }
    ensures words { OnOk result (words_in (views runs.new.items) ≡
        words_in (views runs.old.items) ++ entries_from address words.now) }
    ensures longest { OnOk result (AreLongest (views runs.new.items)) }
{
    if let Some(mut last) = runs.pop() {
        if last.ends_at(address) {
            last.words.extend_from_slice(words)?;
            runs.push(last)?;
            return Ok(());
        }
        runs.push(last)?;
    }
    let words = Vec::from_slice(alloc, words)?;
    runs.push(Segment { address, words })?;
    Ok(())
}

/// The longest runs of the words of segments.
pub fn longest_runs(alloc: Global, segments: &[Segment]) -> Result<Vec<Segment>, AllocError>
    requires { AreSegments 0 (views segments.now) }
    ensures runs { IfOk result (λ runs. views runs.items ≡ runs_of (words_in (views segments.now))) }
    ensures stand { IfOk result (λ runs. AreSegments 0 (views runs.items)) }
{
    let mut runs = Vec::new(alloc);
    for segment in segments {
        push_words(alloc, &mut runs, segment.address, &segment.words)?;
    }
    Ok(runs)
}
