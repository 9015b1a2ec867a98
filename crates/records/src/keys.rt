// Key records: access records and delegations with keys in the place of names.
ghost use Rattle.std.specs.Prelude.{◌≡◌, ◌+◌, ◌≤◌, length};
ghost use Rattle.wire.specs.Placed.{placed};
ghost use Rattle.records.specs.Parsed.{found_as};
ghost use Rattle.records.specs.KeyRecords.{key_access_record, key_access_value, key_access_of, key_access_bytes, key_delegation_record, key_delegation_value, key_delegation_of, key_delegation_bytes};

use crate::faults::Fault;
use crate::fields::{Use, read_depth, read_key, read_use};
use rules::{Depth, Key};

#[derive(Clone, Copy, PartialEq, Eq)]
pub struct KeyAccess {
    pub owner: Key,
    pub wanted: Use,
    pub subject: Key,
    pub depth: Depth,
}

#[derive(Clone, Copy, PartialEq, Eq)]
pub struct KeyDelegation {
    pub writer: Key,
    pub owner: Key,
    pub wanted: Use,
    pub delegatee: Key,
    pub depth: Depth,
}

// The key access record that `rest` begins with.
pub fn read_key_access(rest: &[u8]) -> Result<(KeyAccess, usize), Fault>
    ensures { result ≡ found_as key_access_value (key_access_record rest.now 0) }
{
    let (owner, at1) = read_key(rest, 0)?;
    let (wanted, at2) = read_use(rest, at1)?;
    let (subject, at3) = read_key(rest, at2)?;
    let (depth, next) = read_depth(rest, at3)?;
    Ok((
        KeyAccess {
            owner,
            wanted,
            subject,
            depth,
        },
        next,
    ))
}

// The key delegation that `rest` begins with.
pub fn read_key_delegation(rest: &[u8]) -> Result<(KeyDelegation, usize), Fault>
    ensures { result ≡ found_as key_delegation_value (key_delegation_record rest.now 0) }
{
    let (writer, at1) = read_key(rest, 0)?;
    let (owner, at2) = read_key(rest, at1)?;
    let (wanted, at3) = read_use(rest, at2)?;
    let (delegatee, at4) = read_key(rest, at3)?;
    let (depth, next) = read_depth(rest, at4)?;
    Ok((
        KeyDelegation {
            writer,
            owner,
            wanted,
            delegatee,
            depth,
        },
        next,
    ))
}

// Writes the key access record at the start of `out`, and returns how many bytes it takes.
pub fn write_key_access(out: &mut [u8], given: KeyAccess) -> usize
    requires { length (key_access_bytes (key_access_of given)) ≤ length out.old }
    ensures { (result ≡ length (key_access_bytes (key_access_of given))) × (out.new ≡ placed out.old 0 (key_access_bytes (key_access_of given))) }
{
    let at1 = wire::write(out, given.owner.0);
    let at2 = wire::put(out, at1, given.wanted.object);
    let at3 = wire::put(out, at2, given.wanted.right);
    let at4 = wire::put(out, at3, given.subject.0);
    wire::put(out, at4, given.depth.number())
}

// Writes the key delegation at the start of `out`, and returns how many bytes it takes.
pub fn write_key_delegation(out: &mut [u8], given: KeyDelegation) -> usize
    requires { length (key_delegation_bytes (key_delegation_of given)) ≤ length out.old }
    ensures { (result ≡ length (key_delegation_bytes (key_delegation_of given))) × (out.new ≡ placed out.old 0 (key_delegation_bytes (key_delegation_of given))) }
{
    let at = wire::write(out, given.writer.0);
    at + write_key_access(
        &mut out[at..],
        KeyAccess {
            owner: given.owner,
            wanted: given.wanted,
            subject: given.delegatee,
            depth: given.depth,
        },
    )
}
