// Answer lines: decimal numbers with one space between them, an answer's number first.
ghost use Rattle.std.specs.Prelude.{◌≡◌};
ghost use Rattle.vectors.specs.Lines.{fault_line};

use kernel::answers::{Answer, number_of};
use records::faults::Fault;
use std::fmt;
use std::io::Write;
use streams::{print_decimal, write_all};

// The numbers of a line.
#[derive(Clone, Copy)]
pub enum Line {
    One(u32),
    Two(u32, usize),
    Three(u32, usize, usize),
    Five(u32, usize, usize, usize, usize),
}

impl fmt::Display for Line {
    fn fmt<W: fmt::Write>(&self, f: &mut fmt::Formatter<W>) -> fmt::Result {
        match self {
            Line::One(a) => write!(f, "{a}"),
            Line::Two(a, b) => write!(f, "{a} {b}"),
            Line::Three(a, b, c) => write!(f, "{a} {b} {c}"),
            Line::Five(a, b, c, d, e) => write!(f, "{a} {b} {c} {d} {e}"),
        }
    }
}

// The line of a fault: its number and its offset.
pub fn fault_line(fault: Fault) -> Line
    ensures { result ≡ fault_line fault }
{
    Line::Two(number_of(fault.kind), fault.place.offset)
}

// Writes the line.
pub fn write_line<W: Write>(out: &mut W, line: Line) {
    let _ = writeln!(out, "{line}");
}

// Ends the line.
pub fn end_line<W: Write>(out: &mut W) {
    let _ = write_all(out, b"\n");
}

// Writes the numbers of an answer: its number, offset, depth and length.
pub fn write_answer<W: Write>(out: &mut W, answer: Answer) {
    let Answer {
        number,
        offset,
        depth,
        length,
    } = answer;
    let _ = write!(out, "{number} {offset} {depth} {length}");
}

// Writes the line of an answer.
pub fn write_answer_line<W: Write>(out: &mut W, answer: Answer) {
    write_answer(out, answer);
    end_line(out);
}

// Writes a line of a number and a row of numbers.
pub fn write_row<W: Write>(out: &mut W, first: u32, numbers: &[u32]) {
    let _ = print_decimal(out, u64::from(first));
    for number in numbers {
        let _ = write_all(out, b" ");
        let _ = print_decimal(out, u64::from(*number));
    }
    end_line(out);
}
