// Which records are for a request, and to which keys: an access record or a delegation by its number, with its names followed by a sheet.
#![tactic(auto)]

ghost use Rattle.std.specs.Prelude.{◌<◌, ◌≤◌, length};
ghost use Rattle.table.specs.ReadTable.{table_at};
ghost use Rattle.matching.specs.Records.{HoldsAccess, HoldsDelegation};
ghost use Rattle.matching.specs.Matching.{Gives, Hands, GivesTo, HandsOn, asked_of};

use crate::good::{Good, Records};
use records::accesses::{Access, read_access};
use records::delegations::{Delegation, read_delegation};
use records::fields::Use;
use rules::{Depth, Key, Space};

pub mod good;
pub mod opening;

// What is asked for: an owner's object, for a right.
#[derive(Clone, Copy, PartialEq, Eq)]
pub struct Asked {
    pub owner: Space,
    pub wanted: Use,
}

// The key that an access record gives access, and the depth.
#[derive(Clone, Copy, PartialEq, Eq)]
pub struct Given {
    pub to: Key,
    pub depth: Depth,
}

// The writer of a delegation, the key that it hands on access to, and the depth.
#[derive(Clone, Copy, PartialEq, Eq)]
pub struct Handed {
    pub writer: Space,
    pub to: Key,
    pub depth: Depth,
}

impl Records<'_> {
    // Access record number `i`.
    pub fn access(&self, i: usize) -> Access
        requires { i < length self.now.accesses.now }
        ensures { HoldsAccess (table_at self.now.table.now) (length self.now.lookup.keys.now) i result }
    {
        let place = self.accesses[i] as usize;
        let (access, _) = read_access(&self.table[place..], self.lookup.keys.len()).unwrap();
        access
    }

    // Delegation number `j`.
    pub fn delegation(&self, j: usize) -> Delegation
        requires { j < length self.now.delegations.now }
        ensures { HoldsDelegation (table_at self.now.table.now) (length self.now.lookup.keys.now) j result }
    {
        let place = self.delegations[j] as usize;
        let (delegation, _) = read_delegation(
            &self.table[place..],
            self.lookup.keys.len(),
        ).unwrap();
        delegation
    }

    // What access record number `i` gives: the key that its name leads to, if it is for the request.
    pub fn match_access(&self, sheet: &[u32], asked: Asked, i: usize) -> Option<Given>
        requires { (length self.now.lookup.packed.now ≤ length sheet.now) × (i < length self.now.accesses.now) }
        ensures { Gives (GivesTo (table_at self.now.table.now) sheet.now (asked_of asked.owner asked.wanted) i) result }
    {
        let access = self.access(i);
        if access.owner != asked.owner || access.wanted != asked.wanted {
            return None;
        }
        let to = self.lookup.follow_name(sheet, access.owner, access.path)?;
        Some(Given {
            to,
            depth: access.depth,
        })
    }

    // What delegation number `j` hands on: the key that its delegatee's name leads to, if it is for the request and its owner path leads to the owner.
    pub fn match_delegation(&self, sheet: &[u32], asked: Asked, j: usize) -> Option<Handed>
        requires { (length self.now.lookup.packed.now ≤ length sheet.now) × (asked.owner.0 < length self.now.lookup.keys.now) × (j < length self.now.delegations.now) }
        ensures { Hands (HandsOn (table_at self.now.table.now) sheet.now (asked_of asked.owner asked.wanted) j) result }
    {
        let delegation = self.delegation(j);
        if delegation.wanted != asked.wanted {
            return None;
        }
        let writer = delegation.writer;
        let owner = self.lookup.follow_name(sheet, writer, delegation.owner)?;
        if owner.0 != self.lookup.keys[asked.owner.0] {
            return None;
        }
        let to = self
            .lookup
            .follow_name(sheet, writer, delegation.delegatee)?;
        Some(Handed {
            writer,
            to,
            depth: delegation.depth,
        })
    }
}

impl Good<'_> {
    // Access record number `i`.
    pub fn access(&self, i: usize) -> Access
        requires { i < length self.now.accesses.now }
        ensures { HoldsAccess (table_at self.now.names.table.now) (length self.now.names.keys.now) i result }
    {
        self.records().access(i)
    }

    // Delegation number `j`.
    pub fn delegation(&self, j: usize) -> Delegation
        requires { j < length self.now.delegations.now }
        ensures { HoldsDelegation (table_at self.now.names.table.now) (length self.now.names.keys.now) j result }
    {
        self.records().delegation(j)
    }
}
