// The chain: an access record, then delegations, each by the one whom the record before is to.
ghost use Rattle.std.specs.Prelude.{◌<◌, ◌≤◌, length};
ghost use Rattle.table.specs.ReadTable.{table_at};
ghost use Rattle.matching.specs.Matching.{Gives, asked_of};
ghost use Rattle.checker.specs.Walks.{StepTo, GoesOn, WalksAll};

use matching::good::Records;
use matching::{Asked, Given};
use records::fields::read_field;

// One step: delegation number `which`, if the holder wrote it and the holder's depth allows a step.
fn walk_one(
    records: &Records<'_>,
    sheet: &[u32],
    asked: Asked,
    which: usize,
    holder: Given,
) -> Option<Given>
    requires { (length records.now.lookup.packed.now ≤ length sheet.now) × (asked.owner.0 < length records.now.lookup.keys.now) × (which < length records.now.delegations.now) }
    ensures { Gives (StepTo (table_at records.now.table.now) sheet.now (asked_of asked.owner asked.wanted) which holder.to holder.depth.0) result }
{
    let handed = records.match_delegation(sheet, asked, which)?;
    if records.lookup.keys[handed.writer.0] != holder.to.0 || holder.depth.number() == 0 {
        return None;
    }
    Some(Given {
        to: handed.to,
        depth: holder.depth.step(handed.depth),
    })
}

// The delegations whose numbers stand from a place on, from the first holder.
fn walk_on(
    records: &Records<'_>,
    sheet: &[u32],
    asked: Asked,
    derivation: &[u8],
    from: usize,
    count: usize,
    first: Given,
) -> Option<Given>
    requires { (length records.now.lookup.packed.now ≤ length sheet.now) × (asked.owner.0 < length records.now.lookup.keys.now) }
    ensures { GoesOn (table_at records.now.table.now) sheet.now (asked_of asked.owner asked.wanted) derivation.now from count first.to first.depth.0 result }
{
    let mut at = from;
    let mut holder = first;
    for _ in 0..count {
        let (value, next) = read_field(derivation, at, 0, 511).ok()?;
        let which = value as usize;
        if which >= records.delegations.len() {
            return None;
        }
        holder = walk_one(records, sheet, asked, which, holder)?;
        at = next;
    }
    Some(holder)
}

// The chain whose numbers stand from a place on: the key that its last name leads to, with the depth.
pub fn walk(
    records: &Records<'_>,
    sheet: &[u32],
    asked: Asked,
    derivation: &[u8],
    from: usize,
    count: usize,
) -> Option<Given>
    requires { (length records.now.lookup.packed.now ≤ length sheet.now) × (asked.owner.0 < length records.now.lookup.keys.now) }
    ensures { WalksAll (table_at records.now.table.now) sheet.now (asked_of asked.owner asked.wanted) derivation.now from count result }
{
    let (value, next) = read_field(derivation, from, 0, 255).ok()?;
    let which = value as usize;
    if which >= records.accesses.len() {
        return None;
    }
    let first = records.match_access(sheet, asked, which)?;
    walk_on(records, sheet, asked, derivation, next, count, first)
}
