// Sections: a count, and so many records.
ghost use Rattle.std.specs.Prelude.{◌≡◌, [], ◌≤◌, length};
ghost use Rattle.rules.specs.Ranges.{most_spaces, most_bindings, most_delegations};
ghost use Rattle.records.specs.Parsed.{found_as, after};
ghost use Rattle.records.specs.Many.{many};
ghost use Rattle.records.specs.Bindings.{binding_record, is_bound, packed};
ghost use Rattle.records.specs.Rows.{is_among, Marked};
ghost use Rattle.table.specs.Sections.{version, section, section_of};
ghost use Rattle.table.specs.ReadTable.{most_table, space_key};
ghost use Rattle.table.specs.Kept.{IfGood, Kept, Standing, number_of, name_of, unbound};

use crate::listed::Listed;
use records::bindings::{pack, read_binding};
use records::faults::{Fault, Kind, fault_at, moved};
use records::fields::{read_field, read_key};
use records::passing::pass_binding;
use records::reader::number_at;
use records::rows::{is_among, is_marked_among, mark};

pub const MOST_SPACES: u32 = 64;

pub const MOST_BINDINGS: u32 = 256;

pub const MOST_ACCESSES: u32 = 256;

pub const MOST_DELEGATIONS: u32 = 512;

// How many records there are, and where the first begins.
#[derive(Clone, Copy, PartialEq, Eq)]
pub struct Section {
    pub count: usize,
    pub first: usize,
}

// The place after the version at the beginning, which is to be this one.
pub fn read_version(table: &[u8], wanted: u32) -> Result<usize, Fault>
    ensures { result ≡ after (version wanted table.now 0) }
{
    let (number, at) = number_at(table, 0)?;
    if number != wanted {
        return Err(fault_at(Kind::Version, 0));
    }
    Ok(at)
}

// So many spaces from a place on; their keys are kept in `keys`.
fn read_spaces(table: &[u8], from: usize, count: usize, keys: &mut [u32]) -> Result<usize, Fault>
    requires { count ≤ length keys.old }
    ensures read { result ≡ after (many space_key count [] table.now from) }
    ensures kept { IfGood (many space_key count [] table.now from) (λ l. Kept number_of keys.new l) }
{
    let mut at = from;
    for i in 0..count {
        let (key, next) = read_key(table, at)?;
        if is_among(&keys[..i], key.0) {
            return Err(fault_at(Kind::Twice, at));
        }
        keys[i] = key.0;
        at = next;
    }
    Ok(at)
}

// The name that the binding at a place binds; `earlier` are the names that are bound already, which are all marked.
fn after_binding(
    table: &[u8],
    at: usize,
    spaces: usize,
    earlier: &[u32],
    marks: &[u16],
) -> Result<(u32, usize), Fault>
    requires { (at ≤ length table.now) × (length table.now ≤ most_table) × (spaces ≤ most_spaces) × Marked marks.now earlier.now }
    ensures { result ≡ found_as name_of (binding_record spaces (λ S b. is_among earlier.now (packed S b)) table.now at) }
{
    let rest = &table[at..];
    if let Some((name, taken)) = pass_binding(rest, spaces) {
        if !is_marked_among(marks, earlier, name) {
            return Ok((name, at + taken));
        }
    }
    match read_binding(rest, spaces, earlier) {
        Ok((binding, taken)) => Ok((pack(binding.space, binding.base), at + taken)),
        Err(fault) => Err(moved(fault, at)),
    }
}

// So many bindings from a place on; the names that they bind are kept in `names`, packed, and where they stand in `places`; `marks` is a row to mark them in.
// The rows that it fills stay loose: each has its own length.
fn read_bindings(
    table: &[u8],
    from: usize,
    count: usize,
    spaces: usize,
    names: &mut [u32],
    places: &mut [u16],
    marks: &mut [u16],
) -> Result<usize, Fault>
    requires { (count ≤ length names.old) × (count ≤ length places.old) × (spaces ≤ most_spaces) × (from ≤ length table.now) × (length table.now ≤ most_table) × (most_delegations ≤ length marks.old) }
    ensures read { result ≡ after (many (λ earlier. binding_record spaces (is_bound earlier)) count [] table.now from) }
    ensures kept { IfGood (many (λ earlier. binding_record spaces (is_bound earlier)) count [] table.now from)
        (λ l. Kept name_of names.new l × Standing (binding_record spaces unbound) table.now places.new l) }
{
    let mut at = from;
    for i in 0..count {
        let (name, next) = after_binding(table, at, spaces, &names[..i], marks)?;
        names[i] = name;
        mark(marks, name);
        places[i] = at as u16;
        at = next;
    }
    Ok(at)
}

// The place after the record at a place: most are passed over, and only the others are read.
fn after_record<R: Listed>(table: &[u8], at: usize, spaces: usize) -> Result<usize, Fault>
    requires { (at ≤ length table.now) × (length table.now ≤ most_table) }
    ensures { result ≡ after (R.reader spaces table.now at) }
{
    let rest = &table[at..];
    if let Some(taken) = R::pass(rest, spaces) {
        return Ok(at + taken);
    }
    match R::read(rest, spaces) {
        Ok(taken) => Ok(at + taken),
        Err(fault) => Err(moved(fault, at)),
    }
}

// So many records from a place on; where they stand is kept in `places`.
fn read_records<R: Listed>(
    table: &[u8],
    from: usize,
    count: usize,
    spaces: usize,
    places: &mut [u16],
) -> Result<usize, Fault>
    requires { (count ≤ length places.old) × (from ≤ length table.now) × (length table.now ≤ most_table) }
    ensures read { result ≡ after (many (λ earlier. R.reader spaces) count [] table.now from) }
    ensures kept { IfGood (many (λ earlier. R.reader spaces) count [] table.now from) (λ l. Standing (R.reader spaces) table.now places.new l) }
{
    let mut at = from;
    for i in 0..count {
        let next = after_record::<R>(table, at, spaces)?;
        places[i] = at as u16;
        at = next;
    }
    Ok(at)
}

// The section of the spaces; their keys are kept in `keys`.
pub fn load_spaces(table: &[u8], from: usize, keys: &mut [u32]) -> Result<(Section, usize), Fault>
    requires { most_spaces ≤ length keys.old }
    ensures read { result ≡ found_as section_of (section most_spaces space_key table.now from) }
    ensures kept { IfGood (section most_spaces space_key table.now from) (λ l. Kept number_of keys.new l.records) }
{
    let (number, first) = read_field(table, from, 0, MOST_SPACES)?;
    let count = number as usize;
    let at = read_spaces(table, first, count, keys)?;
    Ok((Section { count, first }, at))
}

// The section of the bindings; the names that they bind are kept in `names`, packed, and where they stand in `places`; `marks` is a row to mark them in.
pub fn load_bindings(
    table: &[u8],
    from: usize,
    spaces: usize,
    names: &mut [u32],
    places: &mut [u16],
    marks: &mut [u16],
) -> Result<(Section, usize), Fault>
    requires { (most_bindings ≤ length names.old) × (most_bindings ≤ length places.old) × (spaces ≤ most_spaces) × (from ≤ length table.now) × (length table.now ≤ most_table) × (most_delegations ≤ length marks.old) }
    ensures read { result ≡ found_as section_of (section most_bindings (λ earlier. binding_record spaces (is_bound earlier)) table.now from) }
    ensures kept { IfGood (section most_bindings (λ earlier. binding_record spaces (is_bound earlier)) table.now from)
        (λ l. Kept name_of names.new l.records × Standing (binding_record spaces unbound) table.now places.new l.records) }
{
    let (number, first) = read_field(table, from, 0, MOST_BINDINGS)?;
    let count = number as usize;
    let at = read_bindings(table, first, count, spaces, names, places, marks)?;
    Ok((Section { count, first }, at))
}

// The section of the access records, or of the delegations; where they stand is kept in `places`.
pub fn load_records<R: Listed>(
    table: &[u8],
    from: usize,
    spaces: usize,
    places: &mut [u16],
) -> Result<(Section, usize), Fault>
    requires { (R.MOST ≤ length places.old) × (from ≤ length table.now) × (length table.now ≤ most_table) }
    ensures read { result ≡ found_as section_of (section R.MOST (λ earlier. R.reader spaces) table.now from) }
    ensures kept { IfGood (section R.MOST (λ earlier. R.reader spaces) table.now from)
        (λ l. Standing (R.reader spaces) table.now places.new l.records) }
{
    let (number, first) = read_field(table, from, 0, R::MOST)?;
    let count = number as usize;
    let at = read_records::<R>(table, first, count, spaces, places)?;
    Ok((Section { count, first }, at))
}
