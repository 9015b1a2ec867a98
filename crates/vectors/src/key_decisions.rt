// Kind 13: decides a key request over a key table.
use crate::lines::write_answer_line;
use kernel::rustamgheb_decide_by_keys;
use std::io::Write;

// Answers the case.
pub fn answer<W: Write>(out: &mut W, table: &[u8], request: &[u8]) {
    write_answer_line(out, rustamgheb_decide_by_keys(table, request));
}
