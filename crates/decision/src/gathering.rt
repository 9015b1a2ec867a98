// The records that are for the request, as a graph: a node for each space and for the subject, an edge for each delegation between two of them.
ghost use Rattle.std.specs.Prelude.{◌≡◌, suc, ◌+◌, ◌<◌, ◌≤◌, length, take};
ghost use Rattle.rules.specs.Ranges.{most_accesses, most_delegations};
ghost use Rattle.table.specs.ReadTable.{table_at};
ghost use Rattle.table.specs.Finding.{keys_of};
ghost use Rattle.matching.specs.Matching.{asked_of};
ghost use Rattle.decision.specs.Gathering.{FindsNode, GivenSo, DrawnSo};

use matching::Asked;
use matching::good::Records;
use reach::edges::edge;
use rules::Key;
use table::finding::find_space;

// The node of the key: its space, or the one behind all spaces if it is the subject's and has none.
pub fn find_node(keys: &[u32], subject: Key, key: Key) -> Option<usize>
    requires { length keys.now ≤ 64 }
    ensures { FindsNode (keys_of keys.now) subject key result }
{
    match find_space(keys, key) {
        Some(space) => Some(space.0),
        None => {
            if key == subject {
                Some(keys.len())
            } else {
                None
            }
        }
    }
}

// One more access record: the node that it gives access keeps the greatest code, and the record's number.
fn give_one(
    records: &Records<'_>,
    sheet: &[u32],
    asked: Asked,
    subject: Key,
    i: usize,
    best: &mut [u8],
    roots: &mut [u16],
)
    requires { (length records.now.lookup.packed.now ≤ length sheet.now) × (i < length records.now.accesses.now) × (length records.now.accesses.now ≤ most_accesses)
        × (length best.old ≡ suc (length records.now.lookup.keys.now)) × (length roots.old ≡ suc (length records.now.lookup.keys.now))
        × GivenSo (table_at records.now.table.now) sheet.now (asked_of asked.owner asked.wanted) subject i best.old roots.old }
    ensures { GivenSo (table_at records.now.table.now) sheet.now (asked_of asked.owner asked.wanted) subject (i + 1) best.new roots.new }
{
    let Some(given) = records.match_access(sheet, asked, i) else {
        return;
    };
    let Some(v) = find_node(records.lookup.keys, subject, given.to) else {
        return;
    };
    let code = given.depth.number() as u8 + 1;
    if code <= best[v] {
        return;
    }
    best[v] = code;
    roots[v] = i as u16;
}

// The codes that the access records give.
pub fn give_all(
    records: &Records<'_>,
    sheet: &[u32],
    asked: Asked,
    subject: Key,
    best: &mut [u8],
    roots: &mut [u16],
)
    requires { (length records.now.lookup.packed.now ≤ length sheet.now) × (length records.now.accesses.now ≤ most_accesses)
        × (length best.old ≡ suc (length records.now.lookup.keys.now)) × (length roots.old ≡ suc (length records.now.lookup.keys.now))
        × GivenSo (table_at records.now.table.now) sheet.now (asked_of asked.owner asked.wanted) subject 0 best.old roots.old }
    ensures { GivenSo (table_at records.now.table.now) sheet.now (asked_of asked.owner asked.wanted) subject (length records.now.accesses.now) best.new roots.new }
{
    for i in 0..records.accesses.len() {
        give_one(records, sheet, asked, subject, i, best, roots);
    }
}

// One more delegation: an edge behind the `m` that there are, if it is between two nodes; answers how many there are then.
// The count stands beside the row, for the rows are fixed: no heap.
fn draw_one(
    records: &Records<'_>,
    sheet: &[u32],
    asked: Asked,
    subject: Key,
    j: usize,
    edges: &mut [u32],
    m: usize,
) -> usize
    requires { (length records.now.lookup.packed.now ≤ length sheet.now) × (asked.owner.0 < length records.now.lookup.keys.now) × (j < length records.now.delegations.now)
        × (length records.now.delegations.now ≤ most_delegations) × (most_delegations ≤ length edges.old) × (m ≤ j)
        × DrawnSo (table_at records.now.table.now) sheet.now (asked_of asked.owner asked.wanted) subject j (take m edges.old) }
    ensures drawn { DrawnSo (table_at records.now.table.now) sheet.now (asked_of asked.owner asked.wanted) subject (j + 1) (take result edges.new) }
    ensures few { result ≤ j + 1 }
{
    let Some(handed) = records.match_delegation(sheet, asked, j) else {
        return m;
    };
    let Some(v) = find_node(records.lookup.keys, subject, handed.to) else {
        return m;
    };
    edges[m] = edge(handed.writer.0, v, handed.depth.number(), j);
    m + 1
}

// The edges that the delegations are; answers how many.
pub fn draw_all(
    records: &Records<'_>,
    sheet: &[u32],
    asked: Asked,
    subject: Key,
    edges: &mut [u32],
) -> usize
    requires { (length records.now.lookup.packed.now ≤ length sheet.now) × (asked.owner.0 < length records.now.lookup.keys.now)
        × (length records.now.delegations.now ≤ most_delegations) × (most_delegations ≤ length edges.old) }
    ensures drawn { DrawnSo (table_at records.now.table.now) sheet.now (asked_of asked.owner asked.wanted) subject (length records.now.delegations.now) (take result edges.new) }
    ensures few { result ≤ length records.now.delegations.now }
{
    let mut m = 0;
    for j in 0..records.delegations.len() {
        m = draw_one(records, sheet, asked, subject, j, edges, m);
    }
    m
}
