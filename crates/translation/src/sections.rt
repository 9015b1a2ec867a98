// The sections of the key table: of every kind of record, what its records become, one behind the other.
// They are written before it is known how many they are: they stand behind one byte, and where the count takes two they are moved.
ghost use Rattle.std.specs.Prelude.{◌≡◌, ◌++◌, ◌+◌, ◌-◌, ◌<◌, ◌≤◌, length, take, drop};
ghost use Rattle.wire.specs.Number.{bytes_of};
ghost use Rattle.wire.specs.Placed.{placed};
ghost use Rattle.records.specs.Many.{many_bytes};
ghost use Rattle.table.specs.ReadTable.{table_at, section_bytes};
ghost use Rattle.translation.specs.Kinds.{Kind, KindLaws};
ghost use Rattle.translation.specs.Becoming.{BecomesKeyed, Keyed, Puts, RoomFor, Ready, key_table_at};

use matching::good::Records;

// How many records are written, and the place after them.
#[derive(Clone, Copy)]
pub struct Written {
    pub count: usize,
    pub end: usize,
}

// A record of a key table, of a kind that records of a table become. `Ready` stands in the contracts here, and not in a type: it speaks of a table and of a
// sheet that the caller fills, and only this crate puts the two together.
pub trait KeyRecord: Copy {
    ghost kind: { Kind };

    // The record that a value of the code stands for.
    ghost told: { Self → kind.KeyRecord };

    // What record number `i` becomes, if it becomes anything.
    fn keyed(records: &Records<'_>, sheet: &[u32], i: usize) -> Option<Self>
        requires { Ready records.now sheet.now × (i < length (kind.records (table_at records.now.table.now))) }
        ensures { Keyed (BecomesKeyed kind records.now.table.now i) told result };

    // Writes the record at the start of `out`, and returns how many bytes it takes.
    fn write(self, out: &mut [u8]) -> usize
        requires { length (kind.bytes (told self)) ≤ length out.old }
        ensures { (result ≡ length (kind.bytes (told self))) × (out.new ≡ placed out.old 0 (kind.bytes (told self))) };

    ghost laws: { KindLaws kind };
}

// Writes what record number `i` becomes behind the records that are written, and counts it.
fn write_record<K: KeyRecord>(
    records: &Records<'_>,
    sheet: &[u32],
    i: usize,
    out: &mut [u8],
    written: Written,
) -> Written
    requires { Ready records.now sheet.now × (i < length (K.kind.records (table_at records.now.table.now)))
        × (written.count ≤ i) × (written.end ≤ length out.old) × RoomFor (BecomesKeyed K.kind records.now.table.now i) K.kind.bytes out.old written.end }
    ensures { Puts (BecomesKeyed K.kind records.now.table.now i) K.kind.bytes out.old written out.new result }
{
    let Some(record) = K::keyed(records, sheet, i) else {
        return written;
    };
    let end = written.end + record.write(&mut out[written.end..]);
    Written {
        count: written.count + 1,
        end,
    }
}

// Writes what the `count` records become one behind the other from the place `from` on.
fn write_records<K: KeyRecord>(
    records: &Records<'_>,
    sheet: &[u32],
    count: usize,
    out: &mut [u8],
    from: usize,
) -> Written
    requires { Ready records.now sheet.now × (count ≡ length (K.kind.records (table_at records.now.table.now)))
        × (from + length (many_bytes K.kind.bytes (K.kind.key_records (key_table_at records.now.table.now))) ≤ length out.old) }
    ensures { (result.count ≡ length (K.kind.key_records (key_table_at records.now.table.now)))
        × (result.end ≡ from + length (many_bytes K.kind.bytes (K.kind.key_records (key_table_at records.now.table.now))))
        × (out.new ≡ placed out.old from (many_bytes K.kind.bytes (K.kind.key_records (key_table_at records.now.table.now)))) }
{
    let mut written = Written {
        count: 0,
        end: from,
    };
    for i in 0..count {
        written = write_record::<K>(records, sheet, i, out, written);
    }
    written
}

// Writes the section of what the `count` records become at the place `at`, and returns the place after it.
pub fn write_section<K: KeyRecord>(
    records: &Records<'_>,
    sheet: &[u32],
    count: usize,
    out: &mut [u8],
    at: usize,
) -> usize
    requires { Ready records.now sheet.now × (count ≡ length (K.kind.records (table_at records.now.table.now)))
        × (at + length (section_bytes K.kind.bytes (K.kind.key_records (key_table_at records.now.table.now))) ≤ length out.old) }
    ensures { (result ≡ at + length (section_bytes K.kind.bytes (K.kind.key_records (key_table_at records.now.table.now))))
        × (out.new ≡ placed out.old at (section_bytes K.kind.bytes (K.kind.key_records (key_table_at records.now.table.now)))) }
{
    let written = write_records::<K>(records, sheet, count, out, at + 1);
    put_count(out, at, written)
}

// Writes the count at the place `at`, before the records that stand from the next place on, and returns the place after them.
pub fn put_count(out: &mut [u8], at: usize, written: Written) -> usize
    requires { (at < written.end) × (written.count < 16384) × (written.end + length (bytes_of written.count) ≤ length out.old + 1) }
    ensures { (result + 1 ≡ written.end + length (bytes_of written.count))
        × (out.new ≡ placed out.old at (bytes_of written.count ++ take (written.end - (at + 1)) (drop (at + 1) out.old))) }
{
    let mut end = written.end;
    if written.count >= 128 {
        out.copy_within(at + 1..end, at + 2);
        end += 1;
    }
    wire::put(out, at, written.count as u32);
    end
}
