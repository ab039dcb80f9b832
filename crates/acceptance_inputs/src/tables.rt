//! What several tests read in tables of text.
use samples::{number, plain};
use std::alloc::Global;
use std::test::Fail;

/// The inputs of a table, each with the words and numbers of what is wanted of it. Rows stand in lines, or with ` / ` between. In a row
/// `; ` stands between inputs of which the same is wanted, ` = ` before that, and `|` for the end of a line. A line of `// ` is a comment.
pub fn rows(alloc: Global, table: &str) -> Result<Vec<(String, String)>, Fail> {
    let mut rows = Vec::new(alloc);
    for line in table.split('\n').filter(|line| !line.starts_with("// ")) {
        for row in line.split(" / ").filter(|row| !row.is_empty()) {
            let (inputs, wanted) = row.rsplit_once(" = ").ok_or("nothing is wanted")?;
            for input in inputs.split("; ") {
                rows.push((input.replace(alloc, "|", "\n")?, plain(alloc, wanted)?))?;
            }
        }
    }
    Ok(rows)
}

/// Numbers with blanks between.
pub fn numbers(alloc: Global, words: &str) -> Result<Vec<u64>, Fail> {
    let mut numbers = Vec::new(alloc);
    for word in words.split_whitespace() {
        numbers.push(number(word)?)?;
    }
    Ok(numbers)
}

/// Bytes of which one is replaced, cut short: `PLACE BYTE LENGTH`.
pub fn changed(alloc: Global, bytes: &[u8], change: &str) -> Result<Vec<u8>, Fail> {
    let mut changed = bytes.to_vec(alloc)?;
    let numbers = numbers(alloc, change)?;
    let [place, byte, length] = numbers.as_slice() else {
        return Err("no change".into());
    };
    let replaced = changed.get_mut(*place as usize).ok_or("no byte there")?;
    *replaced = u8::try_from(*byte)?;
    changed.truncate(*length as usize);
    Ok(changed)
}
