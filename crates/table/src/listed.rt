// The two kinds of records that a table lists behind its bindings: how one is passed over, and how it is read.
ghost use Rattle.std.specs.Prelude.{◌≡◌, ℕ, IfSome};
ghost use Rattle.rules.specs.Ranges.{most_accesses, most_delegations};
ghost use Rattle.rules.specs.Tables.{AccessRecord, Delegation};
ghost use Rattle.records.specs.Parsed.{Reader, after};
ghost use Rattle.records.specs.Passing.{Passes};
ghost use Rattle.records.specs.Accesses.{access_record};
ghost use Rattle.records.specs.Delegations.{delegation_record};
ghost use Rattle.records.proofs.FormatLaws.{Walks};
ghost use Rattle.records.proofs.RecordsForm.{access_walks, delegation_walks};

use crate::loading::{MOST_ACCESSES, MOST_DELEGATIONS};
use records::accesses::{Access, read_access};
use records::delegations::{Delegation, read_delegation};
use records::faults::Fault;
use records::passing::{pass_access, pass_delegation};

pub trait Listed {
    // What the rules know of the record.
    ghost Meaning: { Type 0 };

    // How it is read, in a table with so many spaces.
    ghost reader: { ℕ → Reader Meaning };

    // How many there may be.
    ghost MOST: { ℕ };

    const MOST: u32;

    // Where the record ends that `rest` begins with, if it can be passed over.
    fn pass(rest: &[u8], spaces: usize) -> Option<usize>
        ensures { IfSome result (λ next. Passes (reader spaces) rest.now 0 next) };

    // Where the record ends that `rest` begins with, or its fault.
    fn read(rest: &[u8], spaces: usize) -> Result<usize, Fault>
        ensures { result ≡ after (reader spaces rest.now 0) };

    // What it reads it reads in one way, from where it stands on.
    ghost walks: { (spaces : ℕ) → Walks (reader spaces) };
}

impl Listed for Access {
    ghost Meaning = { AccessRecord };

    ghost reader = { access_record };

    ghost MOST = { most_accesses };

    const MOST: u32 = MOST_ACCESSES;

    ghost walks = { access_walks };

    fn pass(rest: &[u8], spaces: usize) -> Option<usize> {
        pass_access(rest, spaces)
    }

    fn read(rest: &[u8], spaces: usize) -> Result<usize, Fault> {
        let (_, end) = read_access(rest, spaces)?;
        Ok(end)
    }
}

impl Listed for Delegation {
    ghost Meaning = { Delegation };

    ghost reader = { delegation_record };

    ghost MOST = { most_delegations };

    const MOST: u32 = MOST_DELEGATIONS;

    ghost walks = { delegation_walks };

    fn pass(rest: &[u8], spaces: usize) -> Option<usize> {
        pass_delegation(rest, spaces)
    }

    fn read(rest: &[u8], spaces: usize) -> Result<usize, Fault> {
        let (_, end) = read_delegation(rest, spaces)?;
        Ok(end)
    }
}
