// The greatest depth that a key has, and a chain that gives it.
ghost use Rattle.std.specs.Prelude.{◌≡◌, ◌<◌, ◌≤◌, length};
ghost use Rattle.rules.specs.Depths.{top};
ghost use Rattle.rules.specs.Ranges.{most_accesses, most_delegations};
ghost use Rattle.table.specs.ReadTable.{table_at};
ghost use Rattle.matching.specs.Matching.{asked_of};
ghost use Rattle.decision.specs.Settling.{Settles};

use crate::gathering::draw_all;
use crate::settling::{Settled, settle};
use matching::Asked;
use matching::good::Records;
use rules::Key;

// Settles what the key has, with room for the edges lent; the chain's delegations stand at the end of `chain`.
pub fn find_chain(
    records: &Records<'_>,
    sheet: &[u32],
    asked: Asked,
    subject: Key,
    edges: &mut [u32],
    chain: &mut [u16],
) -> Option<Settled>
    requires { (length records.now.lookup.packed.now ≤ length sheet.now) × (asked.owner.0 < length records.now.lookup.keys.now)
        × (length records.now.accesses.now ≤ most_accesses) × (length records.now.delegations.now ≤ most_delegations) × (most_delegations ≤ length edges.old) × (length chain.old ≡ top) }
    ensures { Settles (table_at records.now.table.now) sheet.now (asked_of asked.owner asked.wanted) subject chain.new result }
{
    let m = draw_all(records, sheet, asked, subject, edges);
    settle(records, sheet, asked, subject, &edges[..m], chain)
}
