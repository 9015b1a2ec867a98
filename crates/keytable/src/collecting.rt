// All records that match a request, collected from the places that are kept: nodes for keys, edges for delegations, and the codes at the start.
ghost use Rattle.std.specs.Prelude.{◌≡◌, ℕ, ◌+◌, ◌<◌, ◌≤◌, length, take};
ghost use Rattle.rules.specs.Ranges.{most_delegations};
ghost use Rattle.records.specs.Parsed.{got};
ghost use Rattle.keytable.specs.Keeping.{asked_at, Known};
ghost use Rattle.keytable.specs.Nodes.{most_nodes, Empty, Apart, Grown};
ghost use Rattle.keytable.specs.Matching.{key_request_of, Writers, Given, DrawnOf, MatchedOf};

use crate::kinds::KeyRecord;
use crate::nodes::KeyNodes;
use records::requests::KeyRequest;

// A key table, a request, and where those records stand that are for what it asks.
// That they are kept is told in contracts and not in a ghost field: it says that a layout of the table exists, and a field would have to hold that layout.
#[derive(Clone, Copy)]
pub struct KeptTable<'a> {
    pub table: &'a [u8],
    pub accesses: &'a [u16],
    pub delegations: &'a [u16],
    pub request: KeyRequest,
}

// The record at a place that is kept, read again.
fn record_at<R: KeyRecord>(table: &[u8], place: u16) -> R
    requires { (place ≤ length table.now) × (x : R.Meaning) × (next : ℕ) × (R.reader table.now place ≡ got x next) }
    ensures { (next : ℕ) × (R.reader table.now place ≡ got (R.meaning result) next) }
{
    match R::read(&table[usize::from(place)..]) {
        Ok((record, _)) => record,
        Err(_) => unreachable!(),
    }
}

// Makes nodes for the writers of the delegations that match, behind those that stand.
fn collect_nodes(kept: &KeptTable<'_>, nodes: &mut KeyNodes)
    requires { Known kept.now.table.now (key_request_of kept.now.request).asked kept.now.accesses.now kept.now.delegations.now × Apart nodes.old × (length nodes.old + length kept.now.delegations.now ≤ most_nodes) }
    ensures grown { Grown nodes.old nodes.new }
    ensures writers { Writers (asked_at kept.now.table.now (key_request_of kept.now.request).asked) (key_request_of kept.now.request).asked nodes.new (length (asked_at kept.now.table.now (key_request_of kept.now.request).asked).delegations) }
    ensures few { length nodes.new ≤ most_nodes }
{
    for place in kept.delegations {
        nodes.take_writer(kept.request, record_at(kept.table, *place));
    }
}

// Draws the edges of the delegations that match; answers how many there are.
fn collect_edges(kept: &KeptTable<'_>, nodes: &KeyNodes, edges: &mut [u32]) -> usize
    requires { Known kept.now.table.now (key_request_of kept.now.request).asked kept.now.accesses.now kept.now.delegations.now × Apart nodes.now × (length kept.now.delegations.now ≤ length edges.old) }
    ensures drawn { DrawnOf (asked_at kept.now.table.now (key_request_of kept.now.request).asked) (key_request_of kept.now.request).asked nodes.now (length (asked_at kept.now.table.now (key_request_of kept.now.request).asked).delegations) (take result edges.new) }
    ensures few { result ≤ length kept.now.delegations.now }
{
    let mut m = 0;
    for place in kept.delegations {
        m = nodes.take_delegation(kept.request, record_at(kept.table, *place), edges, m);
    }
    m
}

// Gives the nodes the codes of the access records that match.
fn collect_codes(kept: &KeptTable<'_>, nodes: &KeyNodes, best: &mut [u8])
    requires { Known kept.now.table.now (key_request_of kept.now.request).asked kept.now.accesses.now kept.now.delegations.now × Apart nodes.now × (length nodes.now ≤ length best.old) × Empty best.old }
    ensures { Given (asked_at kept.now.table.now (key_request_of kept.now.request).asked) (key_request_of kept.now.request).asked nodes.now (length (asked_at kept.now.table.now (key_request_of kept.now.request).asked).accesses) best.new }
{
    for place in kept.accesses {
        nodes.take_access(kept.request, record_at(kept.table, *place), best);
    }
}

// Collects all records that match: edges, of which it answers how many there are, and the codes at the start. The subject is node 0.
pub fn collect(kept: &KeptTable<'_>, edges: &mut [u32], best: &mut [u8]) -> usize
    requires { Known kept.now.table.now (key_request_of kept.now.request).asked kept.now.accesses.now kept.now.delegations.now × Empty best.old × (most_delegations < length best.old) × (most_delegations ≤ length edges.old) }
    ensures matched { MatchedOf (asked_at kept.now.table.now (key_request_of kept.now.request).asked) (key_request_of kept.now.request) (take result edges.new) best.new }
    ensures few { result ≤ most_delegations }
{
    let mut nodes = KeyNodes::new();
    nodes.add(kept.request.subject);
    collect_nodes(kept, &mut nodes);
    collect_codes(kept, &nodes, best);
    collect_edges(kept, &nodes, edges)
}
