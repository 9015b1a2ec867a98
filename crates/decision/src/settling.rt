// The greatest depth that the subject has, and a chain that gives it.
ghost use Rattle.std.specs.Prelude.{◌≡◌, suc, ◌≤◌, length};
ghost use Rattle.rules.specs.Depths.{top};
ghost use Rattle.rules.specs.Ranges.{most_accesses, most_delegations};
ghost use Rattle.table.specs.ReadTable.{table_at};
ghost use Rattle.matching.specs.Matching.{asked_of};
ghost use Rattle.decision.specs.Gathering.{DrawnSo};
ghost use Rattle.decision.specs.Settling.{Settles, depth_of};

use crate::gathering::{find_node, give_all};
use matching::Asked;
use matching::good::Records;
use reach::{reach, trace};
use rules::{Depth, Key};

// The greatest depth, the number of the chain's access record, and where its delegations begin.
#[derive(Clone, Copy)]
pub struct Settled {
    pub depth: Depth,
    pub access: usize,
    pub first: usize,
}

// The depth that the code stands for, if it stands for one.
fn depth_of(code: u8) -> Option<Depth>
    requires { code ≤ suc top }
    ensures { result ≡ depth_of code }
{
    if code == 0 {
        return None;
    }
    Depth::new(u32::from(code) - 1)
}

// Settles what the subject has, over the edges that the delegations are; the chain's delegations stand at the end of `chain`.
pub fn settle(
    records: &Records<'_>,
    sheet: &[u32],
    asked: Asked,
    subject: Key,
    edges: &[u32],
    chain: &mut [u16],
) -> Option<Settled>
    requires { (length records.now.lookup.packed.now ≤ length sheet.now) × (length records.now.accesses.now ≤ most_accesses) × (length records.now.delegations.now ≤ most_delegations)
        × DrawnSo (table_at records.now.table.now) sheet.now (asked_of asked.owner asked.wanted) subject (length records.now.delegations.now) edges.now × (length edges.now ≤ most_delegations)
        × (length chain.old ≡ top) }
    ensures { Settles (table_at records.now.table.now) sheet.now (asked_of asked.owner asked.wanted) subject chain.new result }
{
    let nodes = records.lookup.keys.len() + 1;
    let mut begun = [0; 65];
    let mut roots = [0; 65];
    let mut best = [0; 65];
    let mut by = [0; 65];
    let begun = &mut begun[..nodes];
    let roots = &mut roots[..nodes];
    let best = &mut best[..nodes];
    let by = &mut by[..nodes];
    give_all(records, sheet, asked, subject, begun, roots);
    best.copy_from_slice(begun);
    reach(edges, best, by);
    let v = find_node(records.lookup.keys, subject, subject)?;
    let depth = depth_of(best[v])?;
    let trail = trace(edges, begun, best, roots, by, v, chain);
    Some(Settled {
        depth,
        access: trail.access,
        first: trail.first,
    })
}
