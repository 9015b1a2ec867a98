// One record against a request: a node for a writer, an edge for a delegation, a code for an access record.
ghost use Rattle.std.specs.Prelude.{◌≡◌, ◌+◌, ◌<◌, ◌≤◌, length, take};
ghost use Rattle.rules.specs.Depths.{top};
ghost use Rattle.records.specs.KeyRecords.{key_access_of, key_delegation_of};
ghost use Rattle.keytable.specs.Keeping.{is_asked};
ghost use Rattle.keytable.specs.Nodes.{Nodes, GrownRows};
ghost use Rattle.keytable.specs.Matching.{key_request_of, WriterHas, EdgeTurnOf, CodeTurn};

use crate::nodes::{add_node, find_node};
use reach::edges::edge;
use records::fields::Use;
use records::keys::{KeyAccess, KeyDelegation};
use records::requests::KeyRequest;
use rules::Key;

// Whether a record for this owner and use is for what is asked.
pub fn is_asked(request: KeyRequest, owner: Key, wanted: Use) -> bool
    ensures { result ≡ is_asked (key_request_of request).asked owner wanted.object wanted.right }
{
    owner == request.owner && wanted == request.wanted
}

// Makes a node for the writer of a delegation that matches; answers how many there are then.
pub fn take_writer(
    request: KeyRequest,
    delegation: KeyDelegation,
    keys: &mut [u32],
    heads: &mut [u16],
    nexts: &mut [u16],
    n: usize,
) -> usize
    requires { Nodes (take n keys.old) heads.old nexts.old × (n < length keys.old) × (n < length nexts.old) × (n < 65535) }
    ensures grown { GrownRows (take n keys.old) (take result keys.new) heads.new nexts.new }
    ensures has { WriterHas (key_request_of request).asked (take result keys.new) (key_delegation_of delegation) }
    ensures few { result ≤ n + 1 }
{
    if is_asked(request, delegation.owner, delegation.wanted) {
        return add_node(keys, heads, nexts, n, delegation.writer);
    }
    n
}

// Draws the edge of a delegation that matches and goes from a node to a node; answers how many there are then. The
// count stands beside the row, for the rows are fixed: no heap.
pub fn take_delegation(
    request: KeyRequest,
    delegation: KeyDelegation,
    keys: &[u32],
    heads: &[u16],
    nexts: &[u16],
    edges: &mut [u32],
    m: usize,
) -> usize
    requires { Nodes keys.now heads.now nexts.now × (length keys.now ≤ 640) × (delegation.depth.0 ≤ top) × (m < length edges.old) }
    ensures turn { EdgeTurnOf (key_request_of request).asked keys.now (key_delegation_of delegation) (take m edges.old) (take result edges.new) }
    ensures few { result ≤ m + 1 }
{
    if !is_asked(request, delegation.owner, delegation.wanted) {
        return m;
    }
    let Some(u) = find_node(keys, heads, nexts, delegation.writer) else {
        return m;
    };
    let Some(v) = find_node(keys, heads, nexts, delegation.delegatee) else {
        return m;
    };
    edges[m] = edge(u, v, delegation.depth.number(), 0);
    m + 1
}

// Gives the subject's node the code of an access record that matches, unless it has as much.
pub fn take_access(
    request: KeyRequest,
    access: KeyAccess,
    keys: &[u32],
    heads: &[u16],
    nexts: &[u16],
    best: &mut [u8],
)
    requires { Nodes keys.now heads.now nexts.now × (length keys.now ≤ length best.old) × (access.depth.0 ≤ top) }
    ensures { CodeTurn (key_request_of request).asked keys.now (key_access_of access) best.old best.new }
{
    if !is_asked(request, access.owner, access.wanted) {
        return;
    }
    let Some(v) = find_node(keys, heads, nexts, access.subject) else {
        return;
    };
    let code = access.depth.number() as u8 + 1;
    if code <= best[v] {
        return;
    }
    best[v] = code;
}
