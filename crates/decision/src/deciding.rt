// The decision over a table that was found good.
ghost use Rattle.std.specs.Prelude.{◌<◌, ◌≤◌, length};
ghost use Rattle.rules.specs.Depths.{top};
ghost use Rattle.rules.specs.Ranges.{most_bindings};
ghost use Rattle.records.specs.DerivationBytes.{most_derivation};
ghost use Rattle.records.specs.Targets.{target_of};
ghost use Rattle.table.specs.ReadTable.{table_at};
ghost use Rattle.sheet.specs.Finds.{FittingTarget};
ghost use Rattle.marking.specs.Needed.{Listed};
ghost use Rattle.matching.specs.Matching.{asked_of};
ghost use Rattle.decision.specs.Showing.{AllWritten};
ghost use Rattle.decision.specs.Promise.{sheet_size, DecidesGood};
ghost use Rattle.decision.specs.Deciding.{Shows, DecidesAs};

use crate::finding::find_chain;
use crate::showing::mark_all;
use crate::writing::{MOST_DERIVATION, write_shown};
use crate::{Grant, Refusal};
use matching::Asked;
use matching::good::Good;
use records::requests::read_request;
use records::targets::Target;

pub const SHEET_SIZE: usize = 256;

// Marks what the chain and the subject need of the listed bindings, and writes the derivation.
fn show(
    good: &Good<'_>,
    sheet: &[u32],
    order: &mut [u16],
    subject: Target,
    access: usize,
    chain: &[u16],
    derivation: &mut [u8],
) -> Option<usize>
    requires { Listed (table_at good.now.names.table.now).names sheet.now order.old × (length order.old ≤ most_bindings) × (length good.now.names.packed.now ≤ length sheet.now)
        × FittingTarget (length good.now.names.keys.now) subject × (access < length (table_at good.now.names.table.now).accesses) × AllWritten (table_at good.now.names.table.now) chain.now
        × (length chain.now ≤ top) × (most_derivation ≤ length derivation.old) }
    ensures { Shows (table_at good.now.names.table.now) (target_of subject) access chain.now order.old derivation.old derivation.new result }
{
    let mut marks = [false; 256];
    mark_all(good, sheet, order, subject, access, chain, &mut marks);
    write_shown(&marks, order, access as u16, chain, derivation)
}

// Decides where there is room: the sheet is filled, the subject's key found, what it has settled, and the derivation written.
fn decide_roomy(
    good: &Good<'_>,
    subject: Target,
    asked: Asked,
    sheet: &mut [u32],
    derivation: &mut [u8],
) -> Result<Grant, Refusal>
    requires { FittingTarget (length good.now.names.keys.now) subject × (asked.owner.0 < length good.now.names.keys.now) × (sheet_size ≤ length sheet.old) × (most_derivation ≤ length derivation.old) }
    ensures { DecidesAs (table_at good.now.names.table.now) (target_of subject) (asked_of asked.owner asked.wanted) sheet.old derivation.old result sheet.new derivation.new }
{
    let mut order = [0; 256];
    let mut edges = [0; 512];
    let listed = good.names.fill(sheet, &mut order, &mut edges);
    let key = good
        .names
        .follow_target(sheet, subject)
        .ok_or(Refusal::Unnamed)?;
    let mut chain = [0; 15];
    let settled = find_chain(&good.records(), sheet, asked, key, &mut edges, &mut chain).ok_or(
        Refusal::Denied,
    )?;
    let length = show(
        good,
        sheet,
        &mut order[..listed],
        subject,
        settled.access,
        &chain[settled.first..],
        derivation,
    )
    .ok_or(Refusal::Overrun)?;
    Ok(Grant {
        depth: settled.depth,
        length,
    })
}

// The answer over a table that was found good.
pub fn decide_good(
    good: &Good<'_>,
    request: &[u8],
    sheet: &mut [u32],
    derivation: &mut [u8],
) -> Result<Grant, Refusal>
    ensures { DecidesGood (table_at good.now.names.table.now) request.now sheet.old derivation.old result sheet.new derivation.new }
{
    let wish = read_request(request, good.names.keys.len()).ok_or(Refusal::Request)?;
    if sheet.len() < SHEET_SIZE || derivation.len() < MOST_DERIVATION {
        return Err(Refusal::Room);
    }
    let asked = Asked {
        owner: wish.owner,
        wanted: wish.wanted,
    };
    decide_roomy(good, wish.subject, asked, sheet, derivation)
}
