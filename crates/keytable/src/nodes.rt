// Nodes: numbers for keys, found by the slot of the key.
ghost use Rattle.std.specs.Prelude.{◌≡◌, [], ◌+◌, ◌<◌, ◌≤◌, List, ℕ, length, take};
ghost use Rattle.rules.specs.Depths.{top};
ghost use Rattle.records.specs.KeyRecords.{key_access_of, key_delegation_of};
ghost use Rattle.keytable.specs.Nodes.{slot, slots, most_nodes, Apart, Nodes, HasNode, FindsNode, Grown, GrownRows};
ghost use Rattle.keytable.specs.Matching.{key_request_of, WriterHas, EdgeTurnOf, CodeTurn};

use crate::matching::{take_access, take_delegation, take_writer};
use records::keys::{KeyAccess, KeyDelegation};
use records::requests::KeyRequest;
use rules::Key;
use std::marker::Model;

// The keys that have nodes, in the order of their numbers: at most the subject's and one for each delegation.
// A slot's head is one more than its last node, a node's next one more than the one before it in its slot; 0 is none.
#[derive(Drop)]
pub struct KeyNodes {
    keys: [u32; 513],
    heads: [u16; 64],
    nexts: [u16; 513],
    count: u16,
}

impl Model for KeyNodes {
    ghost Value = { List ℕ };

    ghost view = { λ s. take s.count s.keys };

    ghost invariant = { λ s. Nodes (take s.count s.keys) s.heads s.nexts × (s.count ≤ most_nodes) };
}

// The slot of the key.
fn slot_of(key: Key) -> usize
    ensures { (result ≡ slot key.0) × (result < slots) }
{
    ((key.0 / 4096 + key.0 / 64 + key.0 % 64) % 64) as usize
}

// The node of the key.
pub fn find_node(keys: &[u32], heads: &[u16], nexts: &[u16], key: Key) -> Option<usize>
    requires { Nodes keys.now heads.now nexts.now }
    ensures { FindsNode keys.now key result }
{
    let mut x = usize::from(heads[slot_of(key)]);
    while let Some(v) = x.checked_sub(1) {
        if keys[v] == key.0 {
            return Some(v);
        }
        x = usize::from(nexts[v]);
    }
    None
}

// Makes a node for the key unless it has one; answers how many there are then.
pub fn add_node(keys: &mut [u32], heads: &mut [u16], nexts: &mut [u16], n: usize, key: Key) -> usize
    requires { Nodes (take n keys.old) heads.old nexts.old × (n < length keys.old) × (n < length nexts.old) × (n < 65535) }
    ensures grown { GrownRows (take n keys.old) (take result keys.new) heads.new nexts.new }
    ensures has { HasNode (take result keys.new) key }
    ensures few { result ≤ n + 1 }
{
    if find_node(&keys[..n], heads, nexts, key).is_some() {
        return n;
    }
    let begin = slot_of(key);
    keys[n] = key.0;
    nexts[n] = heads[begin];
    heads[begin] = (n + 1) as u16;
    n + 1
}

impl KeyNodes {
    // No nodes.
    pub fn new() -> KeyNodes
        ensures { result ≡ [] }
    {
        KeyNodes {
            keys: [0; 513],
            heads: [0; 64],
            nexts: [0; 513],
            count: 0,
        }
    }

    // The node of the key.
    pub fn find(&self, key: Key) -> Option<usize>
        ensures finds { FindsNode self.now key result }
        ensures apart { Apart self.now }
        ensures few { length self.now ≤ most_nodes }
    {
        let keys = &self.keys[..usize::from(self.count)];
        find_node(keys, &self.heads, &self.nexts, key)
    }

    // Makes a node for the key unless it has one.
    pub fn add(&mut self, key: Key)
        requires { length self.old < most_nodes }
        ensures grown { Grown self.old self.new }
        ensures has { HasNode self.new key }
        ensures few { length self.new ≤ length self.old + 1 }
    {
        let n = usize::from(self.count);
        self.count = add_node(&mut self.keys, &mut self.heads, &mut self.nexts, n, key) as u16;
    }

    // Makes a node for the writer of a delegation that matches.
    pub fn take_writer(&mut self, request: KeyRequest, delegation: KeyDelegation)
        requires { Apart self.old × (length self.old < most_nodes) }
        ensures grown { Grown self.old self.new }
        ensures has { WriterHas (key_request_of request).asked self.new (key_delegation_of delegation) }
        ensures few { length self.new ≤ length self.old + 1 }
    {
        let n = usize::from(self.count);
        self.count = take_writer(
            request,
            delegation,
            &mut self.keys,
            &mut self.heads,
            &mut self.nexts,
            n,
        ) as u16;
    }

    // Draws the edge of a delegation that matches and goes from a node to a node; answers how many there are then.
    pub fn take_delegation(
        &self,
        request: KeyRequest,
        delegation: KeyDelegation,
        edges: &mut [u32],
        m: usize,
    ) -> usize
        requires { (delegation.depth.0 ≤ top) × (m < length edges.old) }
        ensures turn { EdgeTurnOf (key_request_of request).asked self.now (key_delegation_of delegation) (take m edges.old) (take result edges.new) }
        ensures few { result ≤ m + 1 }
    {
        let keys = &self.keys[..usize::from(self.count)];
        take_delegation(
            request,
            delegation,
            keys,
            &self.heads,
            &self.nexts,
            edges,
            m,
        )
    }

    // Gives the subject's node the code of an access record that matches, unless it has as much.
    pub fn take_access(&self, request: KeyRequest, access: KeyAccess, best: &mut [u8])
        requires { (length self.now ≤ length best.old) × (access.depth.0 ≤ top) }
        ensures { CodeTurn (key_request_of request).asked self.now (key_access_of access) best.old best.new }
    {
        let keys = &self.keys[..usize::from(self.count)];
        take_access(request, access, keys, &self.heads, &self.nexts, best);
    }
}
