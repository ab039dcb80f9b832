//! The program's output, which is written without memory.
ghost use Rattle.std.specs.Prelude.{◌<◌};

use arrayvec::ArrayVec;
use wb_text::decimal_digits;
use workbench::Sink;

/// What is written to.
#[derive(Drop)]
pub struct Show<W> {
    sink: W,
}

impl<W: Sink> Show<W> {
    /// The output into a writer.
    pub fn new(sink: W) -> Show<W> {
        Show { sink }
    }

    /// Writes a text. Where that fails, nobody is left to report to.
    pub fn text(&mut self, bytes: &[u8]) {
        let _ = wb_io::write_whole(&mut self.sink, bytes);
    }

    /// Writes parts of a line, with blanks between them, and its line feed.
    pub fn line(&mut self, parts: &[&[u8]]) {
        let mut blank = false;
        for part in parts {
            if blank {
                self.text(b" ");
            }
            self.text(part);
            blank = true;
        }
        self.text(b"\n");
    }

    /// Writes a name and a number in decimal as a line.
    pub fn number(&mut self, name: &[u8], number: u64) {
        self.line(&[name, decimal_digits(number).as_slice()]);
    }

    /// Writes a name and bytes in hexadecimal as a line.
    pub fn bytes(&mut self, name: &[u8], bytes: &[u8]) {
        self.text(name);
        self.text(b" ");
        let mut digits = ArrayVec::<u8, 128>::new();
        for byte in bytes {
            if digits.len() > 120 {
                self.text(digits.as_slice());
                digits.clear();
            }
            let _ = digits.try_push(digit(*byte / 16));
            let _ = digits.try_push(digit(*byte % 16));
        }
        self.text(digits.as_slice());
        self.text(b"\n");
    }
}

// A hexadecimal digit.
fn digit(value: u8) -> u8
    requires { value < 16 }
{
    if value < 10 {
        b'0' + value
    } else {
        b'a' + (value - 10)
    }
}
