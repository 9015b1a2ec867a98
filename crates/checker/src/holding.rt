// Whether a derivation holds, over a table that was found good.
ghost use Rattle.std.specs.Prelude.{◌<◌, ◌≤◌, length};
ghost use Rattle.records.specs.Targets.{target_of};
ghost use Rattle.table.specs.ReadTable.{table_at};
ghost use Rattle.sheet.specs.Finds.{FittingTarget};
ghost use Rattle.matching.specs.Matching.{asked_of};
ghost use Rattle.checker.specs.Walks.{Blank};
ghost use Rattle.checker.specs.Promise.{HoldsAs, ChecksGood};

use crate::Refusal;
use crate::listing::enter_listed;
use crate::walking::walk;
use matching::good::Good;
use matching::{Asked, Given};
use records::derivations::{Parts, read_derivation};
use records::requests::read_request;
use records::targets::Target;
use rules::Depth;

// The depth at which the derivation with these parts holds: the listed bindings are entered, and by them the chain leads to the subject's key.
pub fn hold(
    good: &Good<'_>,
    sheet: &mut [u32],
    subject: Target,
    asked: Asked,
    derivation: &[u8],
    parts: Parts,
) -> Option<Given>
    requires { (length good.now.names.packed.now ≤ length sheet.old) × Blank (table_at good.now.names.table.now).names sheet.old
        × FittingTarget (length good.now.names.keys.now) subject × (asked.owner.0 < length good.now.names.keys.now) }
    ensures { HoldsAs (table_at good.now.names.table.now) (target_of subject) (asked_of asked.owner asked.wanted) derivation.now parts result }
{
    if !enter_listed(&good.names, derivation, parts.first, parts.bindings, sheet) {
        return None;
    }
    let key = good.names.follow_target(sheet, subject)?;
    let last = walk(
        &good.records(),
        sheet,
        asked,
        derivation,
        parts.chain,
        parts.delegations,
    )?;
    if last.to != key {
        return None;
    }
    Some(last)
}

// The answer over a table that was found good.
pub fn check_good(good: &Good<'_>, request: &[u8], derivation: &[u8]) -> Result<Depth, Refusal>
    ensures { ChecksGood (table_at good.now.names.table.now) request.now derivation.now result }
{
    let wish = read_request(request, good.names.keys.len()).ok_or(Refusal::Request)?;
    let parts = read_derivation(derivation).ok_or(Refusal::Derivation)?;
    let asked = Asked {
        owner: wish.owner,
        wanted: wish.wanted,
    };
    let mut sheet = [0; 256];
    let given = hold(good, &mut sheet, wish.subject, asked, derivation, parts).ok_or(
        Refusal::Derivation,
    )?;
    Ok(given.depth)
}
