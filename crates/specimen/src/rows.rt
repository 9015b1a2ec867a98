// P1 to P8: the sheet, the decisions over T, and the derivations that are checked.
use crate::lines::{Bytes, Told, write_row};
use kernel::answers::DONE;
use kernel::{rustamgheb_check, rustamgheb_decide};

// Key 20 asks for right 2.
pub const BY_KEY_20: &[u8] = b"\x00\x14\x00\x07\x02";

// The derivation of what key 20 asks for.
pub const DERIVATION_OF_20: &[u8] = b"\x01\x00\x01\x00";

// Key 40 asks for right 2.
const BY_KEY_40: &[u8] = b"\x00\x28\x00\x07\x02";

// Answers P1: the sheet after a decision over T, which has six bindings.
fn sheet_row(rt: &impl Print, table: &[u8]) {
    let mut sheet = [7; 256];
    let mut derivation = [0; 512];
    rustamgheb_decide(table, BY_KEY_20, &mut sheet, &mut derivation);
    let _ = print!(rt; "P1 sheet");
    for number in &sheet[..6] {
        let _ = print!(rt; " {number}");
    }
    let _ = println!(rt);
}

// Answers a row of a request; what the decision wrote for a grant is handed to the checker.
fn decision_row(rt: &impl Print, name: &str, asked: &str, table: &[u8], request: &[u8]) {
    let mut sheet = [7; 256];
    let mut derivation = [0; 512];
    let answer = rustamgheb_decide(table, request, &mut sheet, &mut derivation);
    let _ = print!(rt; "{name} ");
    write_row(rt, asked.as_bytes(), answer);
    if answer.number == DONE {
        let written = &derivation[..answer.length as usize];
        let checked = rustamgheb_check(table, request, written);
        let _ = print!(rt; "{name} ");
        write_row(rt, b"what the decision wrote", checked);
    }
}

// Answers a row of a request with a derivation.
fn check_row(rt: &impl Print, name: &str, table: &[u8], request: &[u8], derivation: &[u8]) {
    let bytes = Bytes(derivation);
    let told = Told(rustamgheb_check(table, request, derivation));
    let _ = println!(rt; "{name}{bytes}: {told}");
}

// Answers P2 to P4: grants, and derivations of the same requests.
fn granted_rows(rt: &impl Print, table: &[u8]) {
    decision_row(rt, "P2", "key 20, right 2", table, BY_KEY_20);
    check_row(rt, "P2", table, BY_KEY_20, DERIVATION_OF_20);
    decision_row(rt, "P3", "key 40, right 2", table, BY_KEY_40);
    check_row(
        rt,
        "P3",
        table,
        BY_KEY_40,
        b"\x04\x00\x01\x03\x05\x02\x00\x00",
    );
    check_row(rt, "P4", table, BY_KEY_40, b"\x03\x00\x01\x03\x02\x00\x00");
}

// Answers the rows.
pub fn answer(rt: &impl Print, table: &[u8]) {
    sheet_row(rt, table);
    granted_rows(rt, table);
    decision_row(rt, "P5", "key 40, right 3", table, b"\x00\x28\x00\x07\x03");
    decision_row(
        rt,
        "P6",
        "path 3 in space 0, right 3",
        table,
        b"\x01\x00\x01\x03\x00\x07\x03",
    );
    decision_row(
        rt,
        "P7",
        "path 5 in space 0, right 3",
        table,
        b"\x01\x00\x01\x05\x00\x07\x03",
    );
    decision_row(rt, "P8", "key 10, right 2", table, b"\x00\x0a\x00\x07\x02");
}
