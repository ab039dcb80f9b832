//! The first pass: what the lines so far say.

ghost use Rattle.std.specs.Prelude.{◌≡◌, ◌+◌, ◌≤◌, ◌<◌, Ok, length};
ghost use Rattle.r3k_asm.specs.Source.{ReadsOrLacks, seen, added, with_word, read};

use crate::fault::AsmFault;
use crate::labels::Labels;
use crate::reference::Reference;
use asm_line::kind::AsmKind;
use asm_line::statement::{Statement, read_line};
use asm_line::target::Target;
use r3k_image::{ClockStart, Constant, WordAddress, WordMap};
use r3k_word::arithmetic::add;
use r3k_word::layout::ROM_START;
use std::alloc::Global;

/// What the lines so far say: the place, the words that they set (one with a target lacks the part of it), the labels, and the
/// constants.
#[derive(Drop)]
pub struct Source<'a> {
    pub place: u32,
    pub words: WordMap,
    pub labels: Labels<'a>,
    pub references: Vec<Reference<'a>>,
    pub byte_time: Option<Constant>,
    pub unit: Option<Constant>,
    pub clock: Option<ClockStart>,
}

impl<'a> Source<'a> {
    ghost use Rattle.std.specs.Prelude.{◌≡◌, IsErrOf};
    ghost use Rattle.asm_line.specs.Statement.{statement_of};
    ghost use Rattle.r3k_asm.specs.Meaning.{SetsOne};
    ghost use Rattle.r3k_asm.specs.Source.{ReadsOrLacks, seen, added, with_word, read, started};

    /// What no lines say.
    pub fn new(alloc: Global) -> Source<'a>
        ensures { seen result ≡ started }
    {
        Source {
            place: ROM_START,
            words: WordMap::new(alloc),
            labels: Labels::new(alloc),
            references: Vec::new(alloc),
            byte_time: None,
            unit: None,
            clock: None,
        }
    }

    // A word stands here.
    #[tactic(auto, unfolding(crate::specs::Source::with_word))]
    fn add_word(&mut self, line: u64, word: u32, target: Option<Target<'a>>) -> Result<(), AsmFault>
        ensures { ReadsOrLacks line (seen self.new) result (with_word line (seen self.old) word target.entry) }
    {
        let Some(address) = WordAddress::new(self.place) else {
            return Err(bad(line, AsmKind::Place));
        };
        if !self.words.insert(address, word)? {
            return Err(bad(line, AsmKind::Overlap));
        }
        self.place = add(self.place, 4);
        if let Some(target) = target {
            self.references.push(Reference {
                line,
                address,
                word,
                target,
            })?;
        }
        Ok(())
    }

    // One more statement.
    #[tactic(auto, unfolding(crate::specs::Source::added))]
    fn add(&mut self, line: u64, statement: Statement<'a>) -> Result<(), AsmFault>
        ensures added { ReadsOrLacks line (seen self.new) result (added line (seen self.old) statement.entry) }
        ensures memory { IsErrOf result AsmFault.Memory → SetsOne (Ok statement.entry) }
    {
        match statement {
            Statement::Empty => {}
            Statement::Label(name) => {
                if !self.labels.insert(&name, self.place)? {
                    return Err(bad(line, AsmKind::Twice));
                }
            }
            Statement::Origin(address) => self.place = address,
            Statement::Word { word, target } => return self.add_word(line, word, target),
            Statement::ByteTime(constant) => {
                if self.byte_time.is_some() {
                    return Err(bad(line, AsmKind::Twice));
                }
                self.byte_time = Some(constant);
            }
            Statement::Unit(constant) => {
                if self.unit.is_some() {
                    return Err(bad(line, AsmKind::Twice));
                }
                self.unit = Some(constant);
            }
            Statement::Clock(start) => {
                if self.clock.is_some() {
                    return Err(bad(line, AsmKind::Twice));
                }
                self.clock = Some(start);
            }
        }
        Ok(())
    }

    /// One more line.
    #[tactic(auto, unfolding(crate::specs::Source::read))]
    pub fn read(&mut self, line: u64, text: &'a [u8]) -> Result<(), AsmFault>
        ensures read { ReadsOrLacks line (seen self.new) result (read line (seen self.old) text.now) }
        // Memory is asked for only for a word or a label.
        ensures memory { IsErrOf result AsmFault.Memory → SetsOne (statement_of text.now) }
    {
        match read_line(text) {
            Ok(statement) => self.add(line, statement),
            Err(kind) => Err(bad(line, kind)),
        }
    }
}

/// What is wrong with a line.
pub fn bad(line: u64, kind: AsmKind) -> AsmFault
    ensures { result ≡ AsmFault.Bad line kind }
{
    AsmFault::Bad { line, kind }
}
