// Kind 5: reads a key request.
ghost use Rattle.std.specs.Prelude.{◌≡◌};
ghost use Rattle.records.specs.Requests.{read_key_request};
ghost use Rattle.vectors.specs.Lines.{key_request_line};

use crate::lines::{Line, write_line};
use kernel::answers::{DONE, WRONG_REQUEST};
use records::requests::read_key_request;
use std::io::Write;

// The line of a key request: whether it is good.
fn line_of(bytes: &[u8]) -> Line
    ensures { result ≡ key_request_line (read_key_request bytes.now) }
{
    match read_key_request(bytes) {
        Some(_) => Line::One(DONE),
        None => Line::One(WRONG_REQUEST),
    }
}

// Answers the case.
pub fn answer<W: Write>(out: &mut W, bytes: &[u8]) {
    write_line(out, line_of(bytes));
}
