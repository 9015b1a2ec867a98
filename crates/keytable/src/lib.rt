// Key tables: reading them, and deciding over them.
#![tactic(auto)]

ghost use Rattle.std.specs.Prelude.{◌≡◌, ◌≤◌, length};
ghost use Rattle.rules.specs.Ranges.{most_accesses, most_delegations};
ghost use Rattle.table.specs.ReadKeyTable.{read_key_table};
ghost use Rattle.table.specs.Kept.{IfGood};
ghost use Rattle.keytable.specs.Loading.{key_loaded_of};
ghost use Rattle.keytable.specs.Keeping.{kept_in, KeysKept};
ghost use Rattle.keytable.specs.Matching.{key_request_of};
ghost use Rattle.keytable.specs.Deciding.{KeyDecides};

use crate::collecting::KeptTable;
use crate::deciding::{answer_of, greatest_code};
use crate::loading::{KeptSection, load_section};
use records::faults::{Fault, Kind, fault_at};
use records::fields::Use;
use records::keys::{KeyAccess, KeyDelegation};
use records::requests::{KeyRequest, read_key_request};
use rules::{Depth, Key};
use table::loading::{Section, read_version};

pub mod accesses;
pub mod collecting;
pub mod deciding;
pub mod delegations;
pub mod kinds;
pub mod loading;
pub mod matching;
pub mod nodes;

pub const MOST_KEY_TABLE: usize = 16384;

// How many records of each kind there are, and where the first of each begins.
#[derive(Clone, Copy, PartialEq, Eq)]
pub struct KeySections {
    pub accesses: Section,
    pub delegations: Section,
}

// The sections of a key table, and of each how many records are for what is asked.
#[derive(Clone, Copy, PartialEq, Eq)]
pub struct KeyKept {
    pub accesses: KeptSection,
    pub delegations: KeptSection,
}

// What no record is for, as no key is 0.
const NOTHING: KeyRequest = KeyRequest {
    subject: Key(0),
    owner: Key(0),
    wanted: Use {
        object: 0,
        right: 0,
    },
};

// Reads the key table whole, and keeps where those records stand that are for what is asked. The
// rows that it fills stay loose: each has its own length.
fn load_asked(
    table: &[u8],
    request: KeyRequest,
    accesses: &mut [u16],
    delegations: &mut [u16],
) -> Result<KeyKept, Fault>
    requires { (most_accesses ≤ length accesses.old) × (most_delegations ≤ length delegations.old) }
    ensures read { result ≡ kept_in (key_request_of request).asked (read_key_table table.now) }
    ensures kept { IfGood (read_key_table table.now)
        (λ l. KeysKept table.now (key_request_of request).asked accesses.new delegations.new l) }
{
    if MOST_KEY_TABLE < table.len() {
        return Err(fault_at(Kind::Long, 0));
    }
    let begin = read_version(table, 0)?;
    let (given, middle) = load_section::<KeyAccess>(table, begin, request, accesses)?;
    let (handed, end) = load_section::<KeyDelegation>(table, middle, request, delegations)?;
    if end != table.len() {
        return Err(fault_at(Kind::Extra, end));
    }
    Ok(KeyKept {
        accesses: given,
        delegations: handed,
    })
}

// Reads the key table whole.
pub fn load_key_table(table: &[u8]) -> Result<KeySections, Fault>
    ensures { result ≡ key_loaded_of (read_key_table table.now) }
{
    let mut accesses = [0; 256];
    let mut delegations = [0; 512];
    let kept = load_asked(table, NOTHING, &mut accesses, &mut delegations)?;
    Ok(KeySections {
        accesses: kept.accesses.section,
        delegations: kept.delegations.section,
    })
}

// Why a key request is not granted.
#[derive(Clone, Copy, PartialEq, Eq)]
pub enum KeyRefusal {
    Table(Fault),
    Request,
    Denied,
}

// A table with a fault grants nothing.
impl From<Fault> for KeyRefusal {
    ghost use Rattle.keytable.specs.declared.KeyRefusal.TheVariants as refusal;

    ghost from_gives = { λ e r. r ≡ refusal.Table e };

    fn from(fault: Fault) -> KeyRefusal {
        KeyRefusal::Table(fault)
    }
}

// Decides a key request over a key table: the depth that is granted, or why none is.
pub fn decide_by_keys(table: &[u8], request: &[u8]) -> Result<Depth, KeyRefusal>
    ensures { KeyDecides table.now request.now result }
{
    let mut accesses = [0; 256];
    let mut delegations = [0; 512];
    let read = read_key_request(request);
    let asked = read.unwrap_or(NOTHING);
    let kept = load_asked(table, asked, &mut accesses, &mut delegations)?;
    let request = read.ok_or(KeyRefusal::Request)?;
    answer_of(greatest_code(&KeptTable {
        table,
        accesses: &accesses[..kept.accesses.kept],
        delegations: &delegations[..kept.delegations.kept],
        request,
    }))
}
