// Key access records, as a kind of key records.
ghost use Rattle.std.specs.Prelude.{refl};
ghost use Rattle.rules.specs.Ranges.{most_accesses};
ghost use Rattle.rules.specs.KeyTables.{KeyAccess};
ghost use Rattle.records.specs.KeyRecords.{key_access_record, key_access_value, key_access_of};
ghost use Rattle.records.proofs.KeyRecordsForm.{key_access_walks};
ghost use Rattle.keytable.specs.Keeping.{access_asked};

use crate::kinds::KeyRecord;
use crate::matching::is_asked;
use records::faults::Fault;
use records::keys::{KeyAccess, read_key_access};
use records::passing::pass_key_access;
use records::requests::KeyRequest;
use table::loading::MOST_ACCESSES;

impl KeyRecord for KeyAccess {
    ghost Meaning = { KeyAccess };

    ghost meaning = { key_access_of };

    ghost value = { key_access_value };

    ghost reader = { key_access_record };

    ghost asked = { access_asked };

    ghost MOST = { most_accesses };

    const MOST: u32 = MOST_ACCESSES;

    ghost held = { λ x. refl };

    ghost walks = { key_access_walks };

    fn read(rest: &[u8]) -> Result<(KeyAccess, usize), Fault> {
        read_key_access(rest)
    }

    fn pass(table: &[u8], at: usize, request: KeyRequest) -> Option<(usize, bool)> {
        pass_key_access(table, at, request.owner, request.wanted)
    }

    fn is_asked(self, request: KeyRequest) -> bool {
        is_asked(request, self.owner, self.wanted)
    }
}
