// Access records with keys in the place of names.
ghost use Rattle.records.specs.KeyRecords.{key_access_of};
ghost use Rattle.translation.specs.Kinds.{access_kind, access_laws};

use crate::sections::KeyRecord;
use matching::good::Records;
use records::keys::{KeyAccess, write_key_access};
use rules::Key;

impl KeyRecord for KeyAccess {
    ghost kind = { access_kind };

    ghost told = { key_access_of };

    ghost laws = { access_laws };

    // What access record number `i` becomes, unless its path has no meaning.
    fn keyed(records: &Records<'_>, sheet: &[u32], i: usize) -> Option<KeyAccess> {
        let access = records.access(i);
        let Some(subject) = records.lookup.follow_name(sheet, access.owner, access.path) else {
            return None;
        };
        Some(KeyAccess {
            owner: Key(records.lookup.keys[access.owner.0]),
            wanted: access.wanted,
            subject,
            depth: access.depth,
        })
    }

    fn write(self, out: &mut [u8]) -> usize {
        write_key_access(out, self)
    }
}
