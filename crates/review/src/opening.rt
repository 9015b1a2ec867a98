// A table with its sheet, opened for what is to be told of it.
use crate::answers::say_refusal;
use crate::opened::OpenTable;
use kernel::answers::of_fault;
use matching::good::Good;
use matching::opening::Rows;

// Fills the sheet of a good table, and tells of it.
fn open_good<F: FnOnce(&OpenTable)>(good: Good, tell: F)
    requires { F.IsAlwaysCallable tell }
{
    let mut sheet = [0; 256];
    let mut order = [0; 256];
    let mut waits = [0; 256];
    good.names.fill(&mut sheet, &mut order, &mut waits);
    tell(&OpenTable {
        good,
        sheet: &sheet,
    });
}

// Opens the table, and tells of it, or says its fault.
pub fn open<F: FnOnce(&OpenTable)>(rt: &impl Print, table: &[u8], tell: F)
    requires { F.IsAlwaysCallable tell }
{
    match Rows::new().open(table) {
        Ok(good) => open_good(good, tell),
        Err(fault) => say_refusal(rt, of_fault(fault)),
    }
}
