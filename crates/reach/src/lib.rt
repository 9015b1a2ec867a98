// The greatest depths, by rounds over edges between nodes that are numbers.
#![tactic(auto)]

ghost use Rattle.std.specs.Prelude.{◌≡◌, ◌<◌, ◌≤◌, length, drop};
ghost use Rattle.rules.specs.Depths.{top, step_code};
ghost use Rattle.rules.specs.Sheets.{entry};
ghost use Rattle.reach.specs.Edges.{froms, tos, depths_of, numbers_of};
ghost use Rattle.reach.specs.Reached.{Edges, Lent, Reached};
ghost use Rattle.reach.specs.Rounds.{Turn, Round};
ghost use Rattle.reach.specs.Graphs.{Traced};

use crate::edges::{depth_of, from_of, number_of, to_of};

pub mod edges;

// The code after one step by an edge of that depth.
#[tactic(auto, using(crate::proofs::StepLaws::step_on))]
fn step_code(code: u8, depth: u8) -> u8
    ensures { result ≡ step_code code depth }
{
    if code < 2 {
        return 0;
    }
    depth.min(code - 2) + 1
}

// Follows one edge; answers whether anything rose so far.
fn follow_edge(edges: &[u32], best: &mut [u8], by: &mut [u16], e: usize, rose: bool) -> bool
    requires { Edges (froms edges.now) (tos edges.now) (depths_of edges.now) (length best.old) × Lent best.old by.old × (e < length edges.now) }
    ensures { Turn (froms edges.now) (tos edges.now) (depths_of edges.now) e best.old by.old rose best.new by.new result }
{
    let edge = edges[e];
    let near = from_of(edge);
    let far = to_of(edge);
    let code = step_code(best[near], depth_of(edge));
    if code <= best[far] {
        return rose;
    }
    best[far] = code;
    by[far] = e as u16;
    true
}

// One round over the edges; answers whether anything rose.
fn round(edges: &[u32], best: &mut [u8], by: &mut [u16]) -> bool
    requires { Edges (froms edges.now) (tos edges.now) (depths_of edges.now) (length best.old) × Lent best.old by.old }
    ensures { Round (froms edges.now) (tos edges.now) (depths_of edges.now) best.old by.old (length (froms edges.now)) best.new by.new result }
{
    let mut rose = false;
    for e in 0..edges.len() {
        rose = follow_edge(edges, best, by, e, rose);
    }
    rose
}

// Raises the codes in `best` to the greatest, and keeps in `by` the edge that gave a node its code.
pub fn reach(edges: &[u32], best: &mut [u8], by: &mut [u16])
    requires { Edges (froms edges.now) (tos edges.now) (depths_of edges.now) (length best.old) × Lent best.old by.old }
    ensures { Reached (froms edges.now) (tos edges.now) (depths_of edges.now) best.old best.new by.new }
{
    let mut rose = true;
    while rose {
        rose = round(edges, best, by);
    }
}

// Where a trail ends: the number that the last node was given by, and where in the chain the first edge's number stands.
#[derive(Clone, Copy)]
pub struct Trail {
    pub access: usize,
    pub first: usize,
}

// Goes from a node that has a code back along the edges that gave the codes; their numbers stand at the end of `chain`, the first edge's first. No iterator
// goes this way: each edge names the node of the next.
pub fn trace(
    edges: &[u32],
    start: &[u8],
    best: &[u8],
    roots: &[u16],
    by: &[u16],
    node: usize,
    chain: &mut [u16],
) -> Trail
    requires { Edges (froms edges.now) (tos edges.now) (depths_of edges.now) (length best.now) × Reached (froms edges.now) (tos edges.now) (depths_of edges.now) start.now best.now by.now × (0 < entry best.now node)
        × (length roots.now ≡ length best.now) × (length chain.old ≡ top) × (length best.now ≤ 65536) }
    ensures { Traced (froms edges.now) (numbers_of edges.now) start.now best.now roots.now by.now node result.access (drop result.first chain.new) × (result.first ≤ top) }
{
    let mut v = node;
    let mut first = chain.len();
    while best[v] != start[v] {
        let e = by[v] as usize;
        first -= 1;
        let edge = edges[e];
        chain[first] = number_of(edge);
        v = from_of(edge);
    }
    Trail {
        access: roots[v] as usize,
        first,
    }
}
