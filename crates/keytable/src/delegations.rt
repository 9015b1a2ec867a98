// Key delegations, as a kind of key records.
ghost use Rattle.std.specs.Prelude.{refl};
ghost use Rattle.rules.specs.Ranges.{most_delegations};
ghost use Rattle.rules.specs.KeyTables.{KeyDelegation};
ghost use Rattle.records.specs.KeyRecords.{key_delegation_record, key_delegation_value, key_delegation_of};
ghost use Rattle.records.proofs.KeyRecordsForm.{key_delegation_walks};
ghost use Rattle.keytable.specs.Keeping.{delegation_asked};

use crate::kinds::KeyRecord;
use crate::matching::is_asked;
use records::faults::Fault;
use records::keys::{KeyDelegation, read_key_delegation};
use records::passing::pass_key_delegation;
use records::requests::KeyRequest;
use table::loading::MOST_DELEGATIONS;

impl KeyRecord for KeyDelegation {
    ghost Meaning = { KeyDelegation };

    ghost meaning = { key_delegation_of };

    ghost value = { key_delegation_value };

    ghost reader = { key_delegation_record };

    ghost asked = { delegation_asked };

    ghost MOST = { most_delegations };

    const MOST: u32 = MOST_DELEGATIONS;

    ghost held = { λ x. refl };

    ghost walks = { key_delegation_walks };

    fn read(rest: &[u8]) -> Result<(KeyDelegation, usize), Fault> {
        read_key_delegation(rest)
    }

    fn pass(table: &[u8], at: usize, request: KeyRequest) -> Option<(usize, bool)> {
        pass_key_delegation(table, at, request.owner, request.wanted)
    }

    fn is_asked(self, request: KeyRequest) -> bool {
        is_asked(request, self.owner, self.wanted)
    }
}
