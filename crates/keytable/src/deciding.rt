// The decision over the records that match.
ghost use Rattle.std.specs.Prelude.{◌≡◌, suc, ◌≤◌, length};
ghost use Rattle.rules.specs.Depths.{top};
ghost use Rattle.rules.specs.Ranges.{most_delegations};
ghost use Rattle.rules.specs.Verdicts.{DecidesByKeys};
ghost use Rattle.rules.specs.Greatest.{verdict_of};
ghost use Rattle.reach.specs.Edges.{froms, tos, depths_of};
ghost use Rattle.reach.specs.Reached.{Edges};
ghost use Rattle.keytable.specs.Loading.{key_table_at};
ghost use Rattle.keytable.specs.Keeping.{Known};
ghost use Rattle.keytable.specs.Matching.{key_request_of};
ghost use Rattle.keytable.specs.Settling.{Codes, Settles, answer_of};

use crate::KeyRefusal;
use crate::collecting::{KeptTable, collect};
use reach::reach;
use rules::Depth;

// The greatest code of node 0.
fn first_code(edges: &[u32], best: &mut [u8]) -> u8
    requires { Edges (froms edges.now) (tos edges.now) (depths_of edges.now) (length best.old) × Codes best.old × (length best.old ≡ suc most_delegations) }
    ensures { Settles edges.now best.old result }
{
    let mut by = [0; 513];
    reach(edges, best, &mut by);
    best[0]
}

// The code of the greatest depth that the subject has.
pub fn greatest_code(kept: &KeptTable<'_>) -> u8
    requires { Known kept.now.table.now (key_request_of kept.now.request).asked kept.now.accesses.now kept.now.delegations.now }
    ensures decides { DecidesByKeys (key_table_at kept.now.table.now) (key_request_of kept.now.request) (verdict_of result) }
    ensures most { result ≤ suc top }
{
    let mut edges = [0; 512];
    let mut best = [0; 513];
    let m = collect(kept, &mut edges, &mut best);
    first_code(&edges[..m], &mut best)
}

// The answer that a code stands for: the depth that is one less, or none.
pub fn answer_of(code: u8) -> Result<Depth, KeyRefusal>
    requires { code ≤ suc top }
    ensures { result ≡ answer_of code }
{
    u32::from(code)
        .checked_sub(1)
        .and_then(Depth::new)
        .ok_or(KeyRefusal::Denied)
}
