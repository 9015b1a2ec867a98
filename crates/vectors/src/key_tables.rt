// Kind 4: reads a key table.
ghost use Rattle.std.specs.Prelude.{◌≡◌};
ghost use Rattle.table.specs.ReadKeyTable.{read_key_table};
ghost use Rattle.vectors.specs.Lines.{key_table_line};

use crate::lines::{Line, fault_line, write_line};
use kernel::answers::DONE;
use keytable::load_key_table;
use std::io::Write;

// The line of a key table: how many records of each kind it has, or its fault.
fn line_of(bytes: &[u8]) -> Line
    ensures { result ≡ key_table_line (read_key_table bytes.now) }
{
    match load_key_table(bytes) {
        Ok(sections) => Line::Three(DONE, sections.accesses.count, sections.delegations.count),
        Err(fault) => fault_line(fault),
    }
}

// Answers the case.
pub fn answer<W: Write>(out: &mut W, bytes: &[u8]) {
    write_line(out, line_of(bytes));
}
