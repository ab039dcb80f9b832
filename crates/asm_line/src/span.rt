//! Parts of a text.

ghost use Rattle.std.specs.Prelude.{◌≡◌, ◌≤◌, length, take, drop};
ghost use Rattle.asm_line.specs.Span.{is_letter, is_decimal, is_in, front_of, rest_of};

/// A class of bytes.
#[derive(Clone, Copy, Debug, PartialEq, Eq)]
pub enum Class {
    /// What stands in a line: all but a line feed.
    Line,
    /// What stands before a comment: all but `#`.
    Code,
    /// What may stand between parts: a space or a tab.
    Blank,
    /// What names and numbers are made of: a letter, a digit or `_`.
    Word,
}

impl Class {
    /// Whether a byte is of the class.
    #[inline]
    #[tactic(auto, unfolding(crate::specs::Span::is_in))]
    pub fn contains(self, byte: u8) -> bool
        ensures { result ≡ is_in self byte }
    {
        match self {
            Class::Line => byte != b'\n',
            Class::Code => byte != b'#',
            Class::Blank => byte == b' ' || byte == b'\t',
            Class::Word => is_letter(byte) || is_digit(byte),
        }
    }
}

/// Whether a byte is a letter or `_`.
#[inline]
pub fn is_letter(byte: u8) -> bool
    ensures { result ≡ is_letter byte }
{
    (b'a' <= byte && byte <= b'z') || (b'A' <= byte && byte <= b'Z') || byte == b'_'
}

/// Whether a byte is a decimal digit.
#[inline]
pub fn is_digit(byte: u8) -> bool
    ensures { result ≡ is_decimal byte }
{
    b'0' <= byte && byte <= b'9'
}

// Where the first byte stands that is not of the class, or the length where there is none.
fn end_of(class: Class, text: &[u8]) -> usize
    ensures within { result ≤ length text.now }
    ensures front { front_of class text.now ≡ take result text.now }
    ensures rest { rest_of class text.now ≡ drop result text.now }
{
    for (place, byte) in text.iter().enumerate() {
        if !class.contains(*byte) {
            return place;
        }
    }
    text.len()
}

/// The bytes of the class that a text begins with, and what follows them.
pub fn span(class: Class, text: &[u8]) -> (&[u8], &[u8])
    ensures front { result.0.now ≡ front_of class text.now }
    ensures rest { result.1.now ≡ rest_of class text.now }
{
    text.split_at(end_of(class, text))
}

/// The text without the blanks that it begins with.
pub fn skip_blanks(text: &[u8]) -> &[u8]
    ensures { result.now ≡ rest_of Class.Blank text.now }
{
    span(Class::Blank, text).1
}
