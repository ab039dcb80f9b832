//! How operands print numbers.

ghost use Rattle.std.specs.Prelude.{◌≡◌, ◌+◌, ◌≤◌, ◌<◌, ◌^◌, ◌++◌, ◌∷◌, [], length, false};
ghost use Rattle.std.specs.Fmt.{decimal, digit_glyph};
ghost use Rattle.arrayvec.specs.ArrayString.{array_string_len};
ghost use Rattle.r3k_disasm.specs.Number.{hexadecimal, signed_text};

use arrayvec::ArrayString;

/// The text of an instruction.
pub type Text = ArrayString<40>;

/// Appends a number below 10 million in decimal.
pub fn push_decimal(text: &mut Text, number: u32)
    requires digits { number < 10 ^ 7 }
    requires room { array_string_len text.old + 7 ≤ 40 }
    ensures bytes { text.new.bytes ≡ text.old.bytes ++ decimal number }
    ensures room { array_string_len text.new ≤ array_string_len text.old + 7 }
{
    if number < 10 {
        push_digit(text, number);
        return;
    }
    push_decimal(text, number / 10);
    push_digit(text, number % 10);
}

/// Appends a half word as a signed number in decimal.
pub fn push_signed(text: &mut Text, half: u16)
    requires { array_string_len text.old + 8 ≤ 40 }
    ensures bytes { text.new.bytes ≡ text.old.bytes ++ signed_text half }
    ensures room { array_string_len text.new ≤ array_string_len text.old + 8 }
{
    if half < 0x8000 {
        push_decimal(text, u32::from(half));
    } else {
        text.push_str("-");
        push_decimal(text, 0x1_0000 - u32::from(half));
    }
}

/// Appends the lowest `count` hexadecimal digits of a number.
pub fn push_hexadecimal(text: &mut Text, count: u32, number: u32)
    requires { array_string_len text.old + count ≤ 40 }
    ensures bytes { text.new.bytes ≡ text.old.bytes ++ hexadecimal count number }
    ensures len { array_string_len text.new ≡ array_string_len text.old + count }
{
    if count == 0 {
        return;
    }
    push_hexadecimal(text, count - 1, number / 16);
    push_digit(text, number % 16);
}

// Appends a digit.
fn push_digit(text: &mut Text, digit: u32)
    requires digit { digit < 16 }
    requires room { array_string_len text.old < 40 }
    ensures bytes { text.new.bytes ≡ text.old.bytes ++ digit_glyph false digit ∷ [] }
    ensures len { array_string_len text.new ≡ array_string_len text.old + 1 }
{
    let digit = digit as u8;
    let glyph = if digit < 10 {
        b'0' + digit
    } else {
        b'a' + (digit - 10)
    };
    text.push(char::from(glyph));
}
