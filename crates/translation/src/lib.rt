// The translation: a table with every name replaced by the key that it means.
#![tactic(auto)]

ghost use Rattle.std.specs.Prelude.{◌≡◌, ◌≤◌, length};
ghost use Rattle.wire.specs.Placed.{placed};
ghost use Rattle.table.specs.ReadKeyTable.{most_key_table, key_table_bytes};
ghost use Rattle.translation.specs.Becoming.{Ready, key_table_at};
ghost use Rattle.translation.specs.Promise.{Answers};

use crate::sections::write_section;
use matching::good::{Good, Records};
use matching::opening::Rows;
use records::faults::Fault;
use records::keys::{KeyAccess, KeyDelegation};

pub mod accesses;
pub mod delegations;
pub mod sections;

pub const MOST_KEY_TABLE: usize = 16384;

// Why a table is not translated.
#[derive(Clone, Copy, PartialEq, Eq)]
pub enum Refusal {
    Table(Fault),
    Room,
}

// A table with a fault is not translated.
impl From<Fault> for Refusal {
    ghost use Rattle.translation.specs.declared.Refusal.TheVariants as refusal;

    ghost from_gives = { λ e r. r ≡ refusal.Table e };

    fn from(fault: Fault) -> Refusal {
        Refusal::Table(fault)
    }
}

// Writes the key table at the start of `out`, and returns how many bytes it takes.
fn write_key_table(records: &Records<'_>, sheet: &[u32], out: &mut [u8]) -> usize
    requires { Ready records.now sheet.now × (length (key_table_bytes (key_table_at records.now.table.now)) ≤ length out.old) }
    ensures { (result ≡ length (key_table_bytes (key_table_at records.now.table.now)))
        × (out.new ≡ placed out.old 0 (key_table_bytes (key_table_at records.now.table.now))) }
{
    let at1 = wire::write(out, 0);
    let at2 = write_section::<KeyAccess>(records, sheet, records.accesses.len(), out, at1);
    write_section::<KeyDelegation>(records, sheet, records.delegations.len(), out, at2)
}

// Translates a table that was found good, by a sheet of its own.
fn translate_good(good: &Good<'_>, out: &mut [u8]) -> usize
    requires { most_key_table ≤ length out.old }
    ensures { (result ≡ length (key_table_bytes (key_table_at good.now.names.table.now)))
        × (out.new ≡ placed out.old 0 (key_table_bytes (key_table_at good.now.names.table.now))) }
{
    let mut sheet = [0; 256];
    let mut order = [0; 256];
    let mut waits = [0; 256];
    good.names.fill(&mut sheet, &mut order, &mut waits);
    write_key_table(&good.records(), &sheet, out)
}

// Translates a table to a key table, which it writes at the start of `out`, and returns how many bytes it takes.
pub fn translate(table: &[u8], out: &mut [u8]) -> Result<usize, Refusal>
    ensures { Answers table.now out.old result out.new }
{
    let mut rows = Rows::new();
    let good = rows.open(table)?;
    if out.len() < MOST_KEY_TABLE {
        return Err(Refusal::Room);
    }
    Ok(translate_good(&good, out))
}
