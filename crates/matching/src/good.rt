// A good table: its names, with where its access records and delegations stand.
ghost use Rattle.std.specs.Prelude.{◌≡◌};
ghost use Rattle.matching.specs.Held.{Held, Held-prop};

use sheet::names::{Lookup, Names};

// The records of a good table: its bytes, what names are looked up in, and where access records and delegations stand.
#[derive(Clone, Copy)]
pub struct Records<'a> {
    pub table: &'a [u8],
    pub lookup: Lookup<'a>,
    pub accesses: &'a [u16],
    pub delegations: &'a [u16],
    pub ghost held: { Held table.now lookup.keys.now lookup.packed.now accesses.now delegations.now } by { Held-prop _ _ _ _ _ },
}

#[derive(Clone, Copy)]
pub struct Good<'a> {
    pub names: Names<'a>,
    pub accesses: &'a [u16],
    pub delegations: &'a [u16],
    pub ghost held: { Held names.table.now names.keys.now names.packed.now accesses.now delegations.now } by { Held-prop _ _ _ _ _ },
}

impl<'a> Good<'a> {
    // Its records.
    pub fn records(&self) -> Records<'a>
        ensures table { result.table.now ≡ self.now.names.table.now }
        ensures keys { result.lookup.keys.now ≡ self.now.names.keys.now }
        ensures packed { result.lookup.packed.now ≡ self.now.names.packed.now }
        ensures accesses { result.accesses.now ≡ self.now.accesses.now }
        ensures delegations { result.delegations.now ≡ self.now.delegations.now }
    {
        Records {
            table: self.names.table,
            lookup: self.names.lookup(),
            accesses: self.accesses,
            delegations: self.delegations,
        }
    }
}
