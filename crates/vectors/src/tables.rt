// Kind 1: reads a table.
ghost use Rattle.std.specs.Prelude.{◌≡◌};
ghost use Rattle.table.specs.ReadTable.{read_table};
ghost use Rattle.vectors.specs.Lines.{table_line};

use crate::lines::{Line, fault_line, write_line};
use kernel::answers::DONE;
use std::io::Write;
use table::load;

// The line of a table: how many records of each kind it has, or its fault.
fn line_of(bytes: &[u8]) -> Line
    ensures { result ≡ table_line (read_table bytes.now) }
{
    match load(bytes) {
        Ok(sections) => Line::Five(
            DONE,
            sections.spaces.count,
            sections.bindings.count,
            sections.accesses.count,
            sections.delegations.count,
        ),
        Err(fault) => fault_line(fault),
    }
}

// Answers the case.
pub fn answer<W: Write>(out: &mut W, bytes: &[u8]) {
    write_line(out, line_of(bytes));
}
