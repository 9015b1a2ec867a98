// Opening a table: it is read whole, and what is kept of a good one is handed on with it.
ghost use Rattle.std.specs.Prelude.{◌≡◌, replicate};
ghost use Rattle.matching.specs.Opening.{Opens};

use crate::good::Good;
use records::faults::Fault;
use sheet::names::Names;
use table::load_index;

// Room for what is kept of the largest table: the keys of its spaces, the names that its bindings bind, packed, and where its records stand.
#[derive(Drop)]
pub struct Rows {
    keys: [u32; 64],
    packed: [u32; 256],
    bindings: [u16; 256],
    accesses: [u16; 256],
    delegations: [u16; 512],
}

impl Rows {
    pub fn new() -> Rows
        ensures { result ≡ record { keys = replicate 64 0; packed = replicate 256 0; bindings = replicate 256 0; accesses = replicate 256 0; delegations = replicate 512 0 } }
    {
        Rows {
            keys: [0; 64],
            packed: [0; 256],
            bindings: [0; 256],
            accesses: [0; 256],
            delegations: [0; 512],
        }
    }

    // Reads the table whole, and opens it if it is good.
    pub fn open<'a>(&'a mut self, table: &'a [u8]) -> Result<Good<'a>, Fault>
        ensures { Opens table.now result }
    {
        let sections = load_index(
            table,
            &mut self.keys,
            &mut self.packed,
            &mut self.bindings,
            &mut self.accesses,
            &mut self.delegations,
        )?;
        Ok(Good {
            names: Names {
                table,
                keys: &self.keys[..sections.spaces.count],
                packed: &self.packed[..sections.bindings.count],
                bindings: &self.bindings,
            },
            accesses: &self.accesses[..sections.accesses.count],
            delegations: &self.delegations[..sections.delegations.count],
        })
    }
}
