// Whole tables: every fault in its order, where the sections begin, and finding a space by its key and a binding by its name.
#![tactic(auto)]

ghost use Rattle.std.specs.Prelude.{◌≡◌, ◌≤◌, length};
ghost use Rattle.rules.specs.Ranges.{most_spaces, most_bindings, most_accesses, most_delegations};
ghost use Rattle.table.specs.ReadTable.{read_table, loaded_of};
ghost use Rattle.table.specs.Kept.{IfGood, Indexed};

use crate::loading::{Section, load_bindings, load_records, load_spaces, read_version};
use records::accesses::Access;
use records::delegations::Delegation;
use records::faults::{Fault, Kind, fault_at};

pub mod finding;
pub mod listed;
pub mod loading;

pub const MOST_TABLE: usize = 32768;

// How many records of each kind there are, and where the first of each begins.
#[derive(Clone, Copy, PartialEq, Eq)]
pub struct Sections {
    pub spaces: Section,
    pub bindings: Section,
    pub accesses: Section,
    pub delegations: Section,
}

// Reads the table whole.
pub fn load(table: &[u8]) -> Result<Sections, Fault>
    ensures { result ≡ loaded_of (read_table table.now) }
{
    let mut keys = [0; 64];
    let mut names = [0; 256];
    let mut bindings = [0; 256];
    let mut accesses = [0; 256];
    let mut delegations = [0; 512];
    load_index(
        table,
        &mut keys,
        &mut names,
        &mut bindings,
        &mut accesses,
        &mut delegations,
    )
}

// Reads the table whole, and keeps the keys of its spaces, the names that its bindings bind, and where its records stand.
pub fn load_index(
    table: &[u8],
    keys: &mut [u32],
    names: &mut [u32],
    bindings: &mut [u16],
    accesses: &mut [u16],
    delegations: &mut [u16],
) -> Result<Sections, Fault>
    requires { (most_spaces ≤ length keys.old) × (most_bindings ≤ length names.old) × (most_bindings ≤ length bindings.old) × (most_accesses ≤ length accesses.old) × (most_delegations ≤ length delegations.old) }
    ensures read { result ≡ loaded_of (read_table table.now) }
    ensures kept { IfGood (read_table table.now)
        (λ l. Indexed table.now l keys.new names.new bindings.new accesses.new delegations.new) }
{
    if MOST_TABLE < table.len() {
        return Err(fault_at(Kind::Long, 0));
    }
    let at1 = read_version(table, 1)?;
    let (spaces, at2) = load_spaces(table, at1, keys)?;
    // The row of the delegations waits its turn, and serves to mark names till then.
    let (bound, at3) = load_bindings(table, at2, spaces.count, names, bindings, delegations)?;
    let (given, at4) = load_records::<Access>(table, at3, spaces.count, accesses)?;
    let (handed, end) = load_records::<Delegation>(table, at4, spaces.count, delegations)?;
    if end != table.len() {
        return Err(fault_at(Kind::Extra, end));
    }
    Ok(Sections {
        spaces,
        bindings: bound,
        accesses: given,
        delegations: handed,
    })
}
