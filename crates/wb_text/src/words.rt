//! The words of a script line.

ghost use Rattle.std.specs.Prelude.{◌≡◌, ◌<◌, ◌≤◌, ◌∷◌, [], MatchOption, IfSome, length, not};
ghost use Rattle.std.specs.List.{position_or_len};
ghost use Rattle.wb_text.specs.Words.{is_blank, words_of};

/// Whether a byte stands between words: a space or a tab.
fn is_blank_byte(byte: u8) -> bool
    ensures { result ≡ is_blank byte }
{
    byte == b' ' || byte == b'\t'
}

// Where the first word begins, or the length where there is no word.
fn word_start(text: &[u8]) -> usize
    ensures place { result ≡ position_or_len (λ byte. not (is_blank byte)) text.now }
    ensures within { result ≤ length text.now }
{
    for (place, byte) in text.iter().enumerate() {
        if !is_blank_byte(*byte) {
            return place;
        }
    }
    text.len()
}

// Where the first blank stands, which ends a word, or the length where there is none.
fn word_end(text: &[u8]) -> usize
    ensures place { result ≡ position_or_len is_blank text.now }
    ensures within { result ≤ length text.now }
{
    for (place, byte) in text.iter().enumerate() {
        if is_blank_byte(*byte) {
            return place;
        }
    }
    text.len()
}

/// The first word and the text after it, or nothing where there is no word.
pub fn first_word(text: &[u8]) -> Option<(&[u8], &[u8])>
    ensures words { MatchOption result (words_of text.now ≡ [])
        (λ found. words_of text.now ≡ found.0.now ∷ words_of found.1.now) }
    ensures not_empty { IfSome result (λ found. 0 < length found.0.now) }
{
    let (_, rest) = text.split_at(word_start(text));
    if rest.is_empty() {
        return None;
    }
    Some(rest.split_at(word_end(rest)))
}
