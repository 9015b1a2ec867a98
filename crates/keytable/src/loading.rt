// Sections of key records: a count, and so many records. Where those stand that are for what is asked is kept.
ghost use Rattle.std.specs.Prelude.{◌≡◌, [], ◌≤◌, length, IfOk};
ghost use Rattle.records.specs.Parsed.{found_as};
ghost use Rattle.records.specs.Many.{many};
ghost use Rattle.table.specs.Sections.{section};
ghost use Rattle.table.specs.Kept.{IfGood};
ghost use Rattle.table.specs.ReadKeyTable.{most_key_table};
ghost use Rattle.keytable.specs.Keeping.{sift, sifted, Placed, kept_of};
ghost use Rattle.keytable.specs.Matching.{key_request_of};

use crate::kinds::KeyRecord;
use records::faults::{Fault, moved};
use records::fields::read_field;
use records::requests::KeyRequest;
use table::loading::Section;

// A section, and how many of its records are for what is asked.
#[derive(Clone, Copy, PartialEq, Eq)]
pub struct KeptSection {
    pub section: Section,
    pub kept: usize,
}

// Whether the record at a place is for what is asked, and the place after it.
fn after_record<R: KeyRecord>(
    table: &[u8],
    at: usize,
    request: KeyRequest,
) -> Result<(bool, usize), Fault>
    requires { (at ≤ length table.now) × (length table.now ≤ most_key_table) }
    ensures { result ≡ found_as (R.asked (key_request_of request).asked) (R.reader table.now at) }
{
    if let Some((next, asked)) = R::pass(table, at, request) {
        return Ok((asked, next));
    }
    match R::read(&table[at..]) {
        Ok((record, taken)) => Ok((record.is_asked(request), at + taken)),
        Err(fault) => Err(moved(fault, at)),
    }
}

// How many of so many records from a place on are for what is asked, with the place after all of them; where those stand is kept in `places`.
fn read_records<R: KeyRecord>(
    table: &[u8],
    from: usize,
    count: usize,
    request: KeyRequest,
    places: &mut [u16],
) -> Result<(usize, usize), Fault>
    requires { (count ≤ length places.old) × (from ≤ length table.now) × (length table.now ≤ most_key_table) }
    ensures read { result ≡ found_as (sifted (R.asked (key_request_of request).asked)) (many (λ earlier. R.reader) count [] table.now from) }
    ensures kept { IfGood (many (λ earlier. R.reader) count [] table.now from)
        (λ l. Placed R.reader table.now places.new (sifted (R.asked (key_request_of request).asked) l) (sift (R.asked (key_request_of request).asked) l)) }
    ensures within { IfOk result (λ r. r.1 ≤ length table.now) }
{
    let mut at = from;
    let mut n = 0;
    for _ in 0..count {
        let (asked, next) = after_record::<R>(table, at, request)?;
        places[n] = at as u16;
        n += usize::from(asked);
        at = next;
    }
    Ok((n, at))
}

// The section of the records, with the place after it; where those stand that are for what is asked is kept in `places`.
pub fn load_section<R: KeyRecord>(
    table: &[u8],
    from: usize,
    request: KeyRequest,
    places: &mut [u16],
) -> Result<(KeptSection, usize), Fault>
    requires { (R.MOST ≤ length places.old) × (from ≤ length table.now) × (length table.now ≤ most_key_table) }
    ensures read { result ≡ found_as (kept_of (R.asked (key_request_of request).asked)) (section R.MOST (λ earlier. R.reader) table.now from) }
    ensures kept { IfGood (section R.MOST (λ earlier. R.reader) table.now from)
        (λ p. Placed R.reader table.now places.new (sifted (R.asked (key_request_of request).asked) p.records) (sift (R.asked (key_request_of request).asked) p.records)) }
    ensures within { IfOk result (λ r. r.1 ≤ length table.now) }
{
    let (number, first) = read_field(table, from, 0, R::MOST)?;
    let count = number as usize;
    let (kept, end) = read_records::<R>(table, first, count, request, places)?;
    Ok((
        KeptSection {
            section: Section { count, first },
            kept,
        },
        end,
    ))
}
