// Kind 6: fills the name sheet of a table.
ghost use Rattle.std.specs.Prelude.{◌≤◌, length};
ghost use Rattle.rules.specs.Ranges.{most_bindings};
ghost use Rattle.vectors.specs.Sheets.{SheetOf};

use crate::lines::{fault_line, write_line, write_row};
use kernel::answers::DONE;
use matching::opening::Rows;
use records::faults::Fault;
use std::io::Write;

// Reads the table and fills its sheet: how many entries it has, or the table's fault.
fn fill_sheet(table: &[u8], sheet: &mut [u32]) -> Result<usize, Fault>
    requires { most_bindings ≤ length sheet.old }
    ensures { SheetOf table.now sheet.new result }
{
    let mut rows = Rows::new();
    let names = rows.open(table)?.names;
    let mut order = [0; 256];
    let mut waits = [0; 256];
    names.fill(sheet, &mut order, &mut waits);
    Ok(names.packed.len())
}

// Answers the case.
pub fn answer<W: Write>(out: &mut W, table: &[u8]) {
    let mut sheet = [7; 256];
    match fill_sheet(table, &mut sheet) {
        Ok(count) => write_row(out, DONE, &sheet[..count]),
        Err(fault) => write_line(out, fault_line(fault)),
    }
}
