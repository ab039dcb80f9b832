//! The two passes over a source.

ghost use Rattle.std.specs.Prelude.{◌≡◌, IfOk, IsErrOf, length};
ghost use Rattle.std.specs.Str.Lines.{lines};
ghost use Rattle.r3k_image.specs.Boot.{IsBoot};
ghost use Rattle.r3k_asm.specs.Source.{seen, started};
ghost use Rattle.r3k_asm.specs.Meaning.{Answers, HasNoFaultBefore, passed, linked, image_of};

use crate::fault::AsmFault;
use crate::labels::Labels;
use crate::lines::first_line;
use crate::reference::Reference;
use crate::source::{Source, bad};
use r3k_image::{ClockStart, Constant, Image, WordMap};
use std::alloc::Global;

// The first pass: what all lines say, or the first fault.
fn first_pass(alloc: Global, text: &[u8]) -> Result<Source<'_>, AsmFault>
    ensures lines { Answers seen result (passed 1 started (lines text.now)) }
    ensures memory { IsErrOf result AsmFault.Memory → HasNoFaultBefore 1 started (lines text.now) }
    ensures whole { IfOk result (λ _. HasNoFaultBefore 1 started (lines text.now)) }
{
    let mut source = Source::new(alloc);
    let mut line = 0u64;
    let mut rest = text;
    while !rest.is_empty() {
        let (front, after) = first_line(rest);
        line += 1;
        source.read(line, front)?;
        rest = after;
    }
    Ok(source)
}

// The second pass: the words with the parts that their targets give, or the first fault.
fn second_pass(
    labels: &Labels<'_>,
    mut words: WordMap,
    references: &[Reference<'_>],
) -> Result<WordMap, AsmFault>
    ensures { Answers (λ w. w) result (linked labels.now words references.now) }
{
    for reference in references {
        match reference.word(labels) {
            Ok(word) => {
                words.insert(reference.address, word)?;
            }
            Err(kind) => return Err(bad(reference.line, kind)),
        }
    }
    Ok(words)
}

/// The image of a source, or the first fault in it.
pub fn assemble(alloc: Global, text: &[u8]) -> Result<Image, AsmFault>
    // What it means, unless memory runs out: its image, or its first fault.
    ensures exact { Answers (λ image. image) result (image_of text.now) }
    // Memory is asked for only once a line without a fault before it sets a word or a label, or once no line has a fault.
    ensures memory { IsErrOf result AsmFault.Memory → HasNoFaultBefore 1 started (lines text.now) }
{
    let Source {
        words,
        labels,
        references,
        byte_time,
        unit,
        clock,
        ..
    } = first_pass(alloc, text)?;
    let words = second_pass(&labels, words, &references)?;
    let byte_time = byte_time.unwrap_or(Constant::plain_byte_time());
    let unit = unit.unwrap_or(Constant::plain_unit());
    let clock = clock.unwrap_or(ClockStart::plain());
    Ok(words.image(alloc, byte_time, unit, clock)?)
}
