// A reader that knows its bytes and its place. What is read is read by the functions that take both as they are.
ghost use Rattle.std.specs.Prelude.{◌≡◌};
ghost use Rattle.records.specs.Parsed.{found};
ghost use Rattle.records.specs.Fields.{any_number};

use crate::faults::Fault;
use crate::fields::read_number;

#[derive(Clone, Copy)]
pub struct Reader<'a> {
    pub table: &'a [u8],
    pub at: usize,
}

// The reader of these bytes at this place.
pub fn open<'a>(table: &'a [u8], at: usize) -> Reader<'a>
    ensures { (result.table ≡ table.entry) × (result.at ≡ at) }
{
    Reader { table, at }
}

// The number at the reader's place.
pub fn number<'a>(r: Reader<'a>) -> Result<(u32, usize), Fault>
    ensures { result ≡ found (any_number r.entry.table.now r.entry.at) }
{
    read_number(r.table, r.at)
}

// The number at a place of these bytes.
pub fn number_at(s: &[u8], at: usize) -> Result<(u32, usize), Fault>
    ensures { result ≡ found (any_number s.now at) }
{
    number(open(s, at))
}
