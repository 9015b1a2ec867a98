// Kind 2: reads a request against a table.
ghost use Rattle.std.specs.Prelude.{◌≡◌};
ghost use Rattle.table.specs.ReadTable.{read_table};
ghost use Rattle.vectors.specs.Lines.{request_line};

use crate::lines::{Line, fault_line, write_line};
use kernel::answers::{DONE, WRONG_REQUEST};
use records::requests::read_request;
use std::io::Write;
use table::load;

// The line of a request: the table's fault, or whether the request is good.
fn line_of(bytes: &[u8], request: &[u8]) -> Line
    ensures { result ≡ request_line (read_table bytes.now) request.now }
{
    match load(bytes) {
        Ok(sections) => match read_request(request, sections.spaces.count) {
            Some(_) => Line::One(DONE),
            None => Line::One(WRONG_REQUEST),
        },
        Err(fault) => fault_line(fault),
    }
}

// Answers the case.
pub fn answer<W: Write>(out: &mut W, table: &[u8], request: &[u8]) {
    write_line(out, line_of(table, request));
}
