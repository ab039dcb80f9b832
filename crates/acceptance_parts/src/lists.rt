//! Lists of what is done to a part and asked of it, and tables of cases, in text.
ghost use Rattle.std.specs.Prelude.{◌≤◌, IfOk};

use samples::{lists, number, plain};
use std::alloc::Global;
use std::fmt::Debug;
use std::mem;
use std::process::Abort;
use std::test::Fail;

/// A part that lists are played on.
pub trait Part {
    /// The part as each list begins with it.
    fn begin() -> Self;

    /// Makes it equal to another one.
    fn copy_from(&mut self, other: &Self);

    /// Does or asks what a clause says, by its name and its numbers, and answers whether all was as it says.
    fn clause(&mut self, name: &str, numbers: &[u32]) -> Result<bool, Fail>;
}

/// Plays lists, with rows as `samples::lists` has them, and commas or line feeds between clauses. A line of `#` is a comment. A message
/// gives the clause that fails, and the list's name. Each part has these clauses beside its own, of another one that each list begins with:
///
///     mark, swap                  the other one becomes equal to this one; they change places
///     same, other, alike          they are equal, or are not; they print the same
pub fn plays<P: Part + PartialEq + Debug + Drop>(
    rt: &(impl Abort + AllocGlobal),
    text: &str,
) -> Result<(), Fail> {
    let alloc = rt.alloc();
    for list in &lists(alloc, text)? {
        let (name, asked) = list.as_str().split_once('\n').ok_or("nothing is done")?;
        let mut part = P::begin();
        let mut other = P::begin();
        for line in asked.lines().filter(|line| !line.starts_with("#")) {
            for clause in line.split(", ") {
                let (verb, words) = clause.split_once(' ').unwrap_or((clause, ""));
                let mut holds = true;
                match verb {
                    "mark" => other.copy_from(&part),
                    "swap" => mem::swap(&mut part, &mut other),
                    "same" => holds = part == other,
                    "other" => holds = part != other,
                    "alike" => {
                        let printed = format!(in alloc; "{part:?}")?;
                        holds = printed == format!(in alloc; "{other:?}")?;
                    }
                    _ => holds = part.clause(verb, numbers_of(alloc, words)?.as_slice())?,
                }
                assert!(rt; holds, "{clause} of {name}");
            }
        }
    }
    Ok(())
}

/// Numbers with blanks between.
pub fn numbers_of(alloc: Global, words: &str) -> Result<Vec<u32>, Fail> {
    let mut numbers = Vec::new(alloc);
    for word in words.split_whitespace() {
        numbers.push(u32::try_from(number(word)?)?)?;
    }
    Ok(numbers)
}

/// A number, if it is within bounds.
pub fn within(number: u32, least: u32, most: u32) -> Result<u32, Fail>
    ensures least { IfOk result (λ number. least ≤ number) }
    ensures most { IfOk result (λ number. number ≤ most) }
{
    if number < least || number > most {
        return Err("a number that is too small or too large".into());
    }
    Ok(number)
}

/// The cases of a table, each with its row's head, its input, and the words and numbers of what is wanted. In a row ` = ` stands before
/// what is wanted, and `; ` between cases.
pub fn cases(alloc: Global, table: &str) -> Result<Vec<(&str, &str, String)>, Fail> {
    let mut cases = Vec::new(alloc);
    for row in table.lines().filter(|row| !row.starts_with("#")) {
        let (head, row) = row.split_once(": ").ok_or("no case")?;
        for case in row.split("; ") {
            let (input, wanted) = case.split_once(" = ").ok_or("nothing is wanted")?;
            cases.push((head, input, plain(alloc, wanted)?))?;
        }
    }
    Ok(cases)
}
