// The names of a good table: what following them reads.
ghost use Rattle.std.specs.Prelude.{◌≡◌, ◌≤◌, length};
ghost use Rattle.rules.specs.Ranges.{most_spaces};
ghost use Rattle.table.specs.ReadTable.{table_at};
ghost use Rattle.sheet.specs.Known.{Known, Known-prop};

// A table's bytes, the keys of its spaces, the names that its bindings bind, packed, and where its bindings stand.
#[derive(Clone, Copy)]
pub struct Names<'a> {
    pub table: &'a [u8],
    pub keys: &'a [u32],
    pub packed: &'a [u32],
    pub bindings: &'a [u16],
    pub ghost known: { Known (table_at table.now).names table.now keys.now packed.now bindings.now } by { Known-prop _ _ _ _ _ },
}

// What a name is looked up in: the keys of spaces, and the names that bindings bind, packed.
#[derive(Clone, Copy)]
pub struct Lookup<'a> {
    pub keys: &'a [u32],
    pub packed: &'a [u32],
    pub ghost few: { length keys.now ≤ most_spaces },
}

impl<'a> Names<'a> {
    // What these names are looked up in.
    pub fn lookup(&self) -> Lookup<'a>
        ensures { (result.keys.now ≡ self.now.keys.now) × (result.packed.now ≡ self.now.packed.now) }
    {
        Lookup {
            keys: self.keys,
            packed: self.packed,
        }
    }
}
