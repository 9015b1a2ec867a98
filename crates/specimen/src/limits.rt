// The rows that are only run: tables at a limit, and past it.
ghost use Rattle.std.specs.Prelude.{◌<◌};

use crate::lines::{Told, ToldTranslation};
use crate::rows::{BY_KEY_20, DERIVATION_OF_20};
use crate::tables::{specimen_table, with_byte, with_spaces};
use kernel::{rustamgheb_check, rustamgheb_decide, rustamgheb_translate};

// Answers a row of a table: what each function that reads one says, with the request and the derivation of P2.
fn limit_row(rt: &impl Print, words: &str, table: &[u8]) {
    let mut sheet = [7; 256];
    let mut derivation = [0; 512];
    let mut key_table = [0; 16384];
    let decided = Told(rustamgheb_decide(table, BY_KEY_20, &mut sheet, &mut derivation));
    let checked = Told(rustamgheb_check(table, BY_KEY_20, DERIVATION_OF_20));
    let translated = ToldTranslation(rustamgheb_translate(table, &mut key_table));
    let _ = println!(rt;
        "{words}: decision {decided}; checker {checked}; translation {translated}"
    );
}

// Answers the rows of tables that end too early or too late.
fn end_rows(rt: &impl Print) {
    limit_row(rt, "no bytes at all", b"");
    limit_row(rt, "T with one byte more", &with_spaces::<60>(0));
    limit_row(rt, "T less its last byte", &specimen_table()[..58]);
}

// Answers the rows of tables with most spaces, and with one too many.
fn space_rows(rt: &impl Print) {
    limit_row(rt, "T with 64 spaces", &with_spaces::<120>(61));
    limit_row(rt, "T with 65 spaces", &with_spaces::<121>(62));
}

// Answers a row of T with another depth at this place.
fn depth_row(rt: &impl Print, words: &str, at: usize, depth: u8)
    requires { at < 59 }
{
    limit_row(rt, words, &with_byte(at, depth));
}

// Answers the rows.
pub fn answer(rt: &impl Print) {
    end_rows(rt);
    space_rows(rt);
    depth_row(rt, "T with depth 15 in its first access record", 42, 15);
    depth_row(rt, "T with depth 16 in its first access record", 42, 16);
    depth_row(rt, "T with depth 15 in its delegation", 58, 15);
    depth_row(rt, "T with depth 16 in its delegation", 58, 16);
}
