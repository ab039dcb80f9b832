//! How replies print numbers.

ghost use Rattle.std.specs.Prelude.{◌≡◌, ◌+◌, ◌%◌, ◌≤◌, ◌<◌, ◌++◌, length, false};
ghost use Rattle.std.specs.Fmt.{decimal, digit_glyph};
ghost use Rattle.arrayvec.specs.ArrayVec.{array_vec_len};
ghost use Rattle.wb_text.specs.Text.{byte_text, flag_text, line, text_bytes, value_text, word_text};

use arrayvec::ArrayVec;

/// The most bytes of a reply: room for the 64 lines of `trace`.
pub const TEXT_BYTES: usize = 16384;

/// The text of a reply.
pub type Text = ArrayVec<u8, TEXT_BYTES>;

/// Appends a text.
pub fn push_text(text: &mut Text, piece: &[u8])
    requires { array_vec_len text.old + length piece.now ≤ text_bytes }
    ensures items { text.new.items ≡ text.old.items ++ piece.now }
    ensures len { array_vec_len text.new ≡ array_vec_len text.old + length piece.now }
{
    let _ = text.try_extend_from_slice(piece);
}

/// A number in decimal.
pub fn decimal_digits(number: u64) -> ArrayVec<u8, 20>
    ensures { result.items ≡ decimal number }
{
    if number < 10 {
        let mut digits = ArrayVec::new();
        digits.push(b'0' + number as u8);
        return digits;
    }
    let mut digits = decimal_digits(number / 10);
    digits.push(b'0' + (number % 10) as u8);
    digits
}

/// Appends a number in decimal, of at most 20 digits.
pub fn push_decimal(text: &mut Text, number: u64)
    requires { array_vec_len text.old + 20 ≤ text_bytes }
    ensures items { text.new.items ≡ text.old.items ++ decimal number }
    ensures room { array_vec_len text.new ≤ array_vec_len text.old + 20 }
{
    push_text(text, decimal_digits(number).as_slice());
}

/// Appends a word: 0x and eight hexadecimal digits.
pub fn push_word(text: &mut Text, word: u32)
    requires { array_vec_len text.old + 10 ≤ text_bytes }
    ensures items { text.new.items ≡ text.old.items ++ word_text word }
    ensures len { array_vec_len text.new ≡ array_vec_len text.old + 10 }
{
    let digits = [
        b'0',
        b'x',
        hexadecimal_digit(word >> 28),
        hexadecimal_digit(word >> 24),
        hexadecimal_digit(word >> 20),
        hexadecimal_digit(word >> 16),
        hexadecimal_digit(word >> 12),
        hexadecimal_digit(word >> 8),
        hexadecimal_digit(word >> 4),
        hexadecimal_digit(word),
    ];
    push_text(text, &digits);
}

/// Appends a byte: two hexadecimal digits.
pub fn push_byte(text: &mut Text, byte: u8)
    requires { array_vec_len text.old + 2 ≤ text_bytes }
    ensures items { text.new.items ≡ text.old.items ++ byte_text byte }
    ensures len { array_vec_len text.new ≡ array_vec_len text.old + 2 }
{
    let digits = [
        hexadecimal_digit(u32::from(byte >> 4)),
        hexadecimal_digit(u32::from(byte)),
    ];
    push_text(text, &digits);
}

/// Appends a name and a word.
pub fn push_field(text: &mut Text, name: &[u8], word: u32)
    requires { array_vec_len text.old + (length name.now + 10) ≤ text_bytes }
    ensures items { text.new.items ≡ text.old.items ++ (name.now ++ word_text word) }
    ensures len { array_vec_len text.new ≡ array_vec_len text.old + (length name.now + 10) }
{
    push_text(text, name);
    push_word(text, word);
}

/// Appends a register and its value.
pub fn push_register(text: &mut Text, number: u64, value: u32)
    requires { array_vec_len text.old + 32 ≤ text_bytes }
    ensures items { text.new.items ≡ text.old.items ++ value_text number value }
    ensures room { array_vec_len text.new ≤ array_vec_len text.old + 32 }
{
    push_text(text, b"r");
    push_decimal(text, number);
    push_text(text, b" ");
    push_word(text, value);
}

/// A flag as a digit.
pub fn flag(set: bool) -> &'static [u8]
    ensures { result.now ≡ flag_text set }
{
    if set { b"1" } else { b"0" }
}

/// Appends the line of a name and a number.
pub fn push_number(text: &mut Text, name: &[u8], number: u64)
    requires short { length name.now ≤ 10 }
    requires room { array_vec_len text.old ≤ 1000 }
    ensures items { text.new.items ≡ text.old.items ++ line (name.now ++ decimal number) }
    ensures room { array_vec_len text.new ≤ array_vec_len text.old + 31 }
{
    push_text(text, name);
    push_decimal(text, number);
    push_text(text, b"\n");
}

// The last hexadecimal digit of a number.
fn hexadecimal_digit(number: u32) -> u8
    ensures { result ≡ digit_glyph false (number % 16) }
{
    let digit = (number % 16) as u8;
    if digit < 10 {
        b'0' + digit
    } else {
        b'a' + (digit - 10)
    }
}
