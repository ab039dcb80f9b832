//! Words that lack the part that their target gives.

ghost use Rattle.std.specs.Prelude.{◌≡◌, ◌<◌, ◌^◌};
ghost use Rattle.r3k_asm.specs.Reference.{target_of, field_of_target, word_of_reference};
ghost use Rattle.asm_line.specs.Statement.{or_fault};

use crate::labels::Labels;
use asm_line::kind::AsmKind;
use asm_line::target::{Place, Reach, Target};
use r3k_image::WordAddress;
use r3k_word::arithmetic::{add, subtract};

/// A word that lacks the part that its target gives, the address where it stands, and its line.
#[derive(Debug, Drop)]
pub struct Reference<'a> {
    pub line: u64,
    pub address: WordAddress,
    pub word: u32,
    pub target: Target<'a>,
}

// Where a target is.
fn target(labels: &Labels<'_>, place: &Place<'_>) -> Result<u32, AsmKind>
    ensures { result ≡ target_of labels.now place.now }
{
    match place {
        Place::Address(address) => Ok(*address),
        Place::Label(name) => labels.get(name).ok_or(AsmKind::Label),
    }
}

// The part of a word at an address that a target gives.
#[tactic(auto, unfolding(crate::specs::Reference::field_of_target))]
fn field(reach: Reach, address: u32, target: u32) -> Result<u32, AsmKind>
    ensures { result ≡ field_of_target reach address target }
{
    if target % 4 != 0 {
        return Err(AsmKind::Reach);
    }
    match reach {
        Reach::Jump => Ok(target / 4 % (1 << 26)),
        Reach::Branch => {
            let distance = subtract(target, add(address, 4));
            if distance < 0x2_0000 || distance >= 0xFFFE_0000 {
                Ok(distance / 4 % (1 << 16))
            } else {
                Err(AsmKind::Reach)
            }
        }
    }
}

impl Reference<'_> {
    ghost use Rattle.std.specs.Prelude.{◌≡◌};
    ghost use Rattle.r3k_asm.specs.Reference.{word_of_reference};

    /// The whole word.
    #[tactic(auto, unfolding(crate::specs::Reference::word_of_reference))]
    pub fn word(&self, labels: &Labels<'_>) -> Result<u32, AsmKind>
        ensures { result ≡ word_of_reference labels.now self.now }
    {
        let target = target(labels, &self.target.place)?;
        let field = field(self.target.reach, self.address.get(), target)?;
        Ok(add(self.word, field))
    }
}
