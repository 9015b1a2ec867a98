// The two kinds of key records: how one is read, passed over, and held against what is asked.
ghost use Rattle.std.specs.Prelude.{◌≡◌, ◌≤◌, Bool, ℕ, length, IfSome};
ghost use Rattle.rules.specs.Tables.{Asked};
ghost use Rattle.rules.specs.declared.Key.{Key};
ghost use Rattle.records.specs.Parsed.{Reader, found_as};
ghost use Rattle.records.specs.Passing.{Sifts};
ghost use Rattle.records.proofs.FormatLaws.{Walks};
ghost use Rattle.keytable.specs.Matching.{key_request_of};

use records::faults::Fault;
use records::requests::KeyRequest;

pub trait KeyRecord: Copy {
    // What the rules know of the record.
    ghost Meaning: { Type 0 };

    ghost meaning: { Self → Meaning };

    // The record as code holds it.
    ghost value: { Meaning → Self };

    ghost reader: { Reader Meaning };

    // Whether it is for what is asked.
    ghost asked: { Asked Key → Meaning → Bool };

    // How many there may be.
    ghost MOST: { ℕ };

    const MOST: u32;

    // The record that `rest` begins with, and how many bytes it takes.
    fn read(rest: &[u8]) -> Result<(Self, usize), Fault>
        ensures { result ≡ found_as value (reader rest.now 0) };

    // The record at the place `at`, if it can be passed over: the place after it, and whether it is for what is asked.
    fn pass(table: &[u8], at: usize, request: KeyRequest) -> Option<(usize, bool)>
        ensures { IfSome result (λ passed. Sifts reader (asked (key_request_of request).asked) table.now at passed.0 passed.1) };

    // Whether the record is for what is asked.
    fn is_asked(self, request: KeyRequest) -> bool
        ensures { result ≡ asked (key_request_of request).asked (meaning self) };

    ghost held: { (x : Meaning) → meaning (value x) ≡ x };

    ghost walks: { Walks reader };
}
