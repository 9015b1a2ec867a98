// How a row says answers and bytes. What cannot be written is left out, and the program goes on.
ghost use Rattle.std.specs.Prelude.{◌≡◌, ◌<◌};
ghost use Rattle.specimen.specs.Digits.{digit_of};

use kernel::answers::{Answer, DONE, WRONG_REQUEST};
use std::fmt;

// An answer: its number, with the depth of a grant or an acceptance.
#[derive(Clone, Copy)]
pub struct Told(pub Answer);

// An answer of the translation: its number, with the length of a key table.
#[derive(Clone, Copy)]
pub struct ToldTranslation(pub Answer);

// Bytes in hexadecimal digits, a space before each.
#[derive(Clone, Copy)]
pub struct Bytes<'a>(pub &'a [u8]);

impl fmt::Display for Told {
    fn fmt<W: fmt::Write>(&self, f: &mut fmt::Formatter<W>) -> fmt::Result {
        match self.0.number {
            DONE => write!(f, "0, depth {}", self.0.depth),
            _ => write_refusal(f, self.0),
        }
    }
}

impl fmt::Display for ToldTranslation {
    fn fmt<W: fmt::Write>(&self, f: &mut fmt::Formatter<W>) -> fmt::Result {
        match self.0.number {
            DONE => write!(f, "0, {} bytes", self.0.length),
            _ => write_refusal(f, self.0),
        }
    }
}

impl fmt::Display for Bytes<'_> {
    fn fmt<W: fmt::Write>(&self, f: &mut fmt::Formatter<W>) -> fmt::Result {
        for byte in self.0 {
            let high = char::from(digit(*byte / 16));
            let low = char::from(digit(*byte % 16));
            write!(f, " {high}{low}")?;
        }
        Ok(())
    }
}

// Writes the line of a row: its words, and what is answered.
pub fn write_row(rt: &impl Print, words: &[u8], answer: Answer) {
    let told = Told(answer);
    let _ = rt.write_all(words);
    let _ = println!(rt; ": {told}");
}

// Writes a refusal: its number, with the offset of a table's fault.
fn write_refusal<W: fmt::Write>(f: &mut fmt::Formatter<W>, answer: Answer) -> fmt::Result {
    if answer.number < WRONG_REQUEST {
        write!(f, "{} at {}", answer.number, answer.offset)
    } else {
        write!(f, "{}", answer.number)
    }
}

// The hexadecimal digit of a number below 16, a listed promise.
fn digit(number: u8) -> u8
    requires { number < 16 }
    ensures { result ≡ digit_of number }
{
    if number < 10 {
        b'0' + number
    } else {
        b'A' + (number - 10)
    }
}
