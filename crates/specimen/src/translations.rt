// P9 and P10: key tables, and the requests of T decided by P9's bytes.
ghost use Rattle.std.specs.Prelude.{◌≤◌, length};

use crate::lines::{Bytes, Told};
use kernel::{rustamgheb_decide_by_keys, rustamgheb_translate};

// Answers a row of a table that is translated: says how many bytes its key table has at the start of `out`.
fn translation_row(rt: &impl Print, name: &str, table: &[u8], out: &mut [u8]) -> usize
    ensures { result ≤ length out.new }
{
    let count = rustamgheb_translate(table, out).length as usize;
    let bytes = Bytes(&out[..count]);
    let _ = println!(rt; "{name} key table, {count} bytes:{bytes}");
    count
}

// Answers a row of a key request.
fn key_row(rt: &impl Print, name: &str, asked: &str, key_table: &[u8], request: &[u8]) {
    let told = Told(rustamgheb_decide_by_keys(key_table, request));
    let _ = println!(rt; "{name} by P9's bytes, {asked}: {told}");
}

// Answers the requests of T by its key table: the subject by its key, the owner by key 10.
fn key_rows(rt: &impl Print, key_table: &[u8]) {
    key_row(rt, "P2", "key 20, right 2", key_table, b"\x14\x0a\x07\x02");
    key_row(rt, "P3", "key 40, right 2", key_table, b"\x28\x0a\x07\x02");
    key_row(rt, "P5", "key 40, right 3", key_table, b"\x28\x0a\x07\x03");
    key_row(rt, "P6", "key 30, right 3", key_table, b"\x1e\x0a\x07\x03");
    key_row(rt, "P8", "key 10, right 2", key_table, b"\x0a\x0a\x07\x02");
}

// Answers the rows.
pub fn answer(rt: &impl Print, table: &[u8]) {
    let mut key_table = [0; 16384];
    let count = translation_row(rt, "P9", table, &mut key_table);
    key_rows(rt, &key_table[..count]);
    translation_row(rt, "P10", b"\x01\x00\x00\x00\x00", &mut key_table);
}
