// Delegations with keys in the place of names.
ghost use Rattle.records.specs.KeyRecords.{key_delegation_of};
ghost use Rattle.translation.specs.Kinds.{delegation_kind, delegation_laws};

use crate::sections::KeyRecord;
use matching::good::Records;
use records::keys::{KeyDelegation, write_key_delegation};
use rules::Key;

impl KeyRecord for KeyDelegation {
    ghost kind = { delegation_kind };

    ghost told = { key_delegation_of };

    ghost laws = { delegation_laws };

    // What delegation number `i` becomes, unless one of its paths has no meaning.
    fn keyed(records: &Records<'_>, sheet: &[u32], i: usize) -> Option<KeyDelegation> {
        let delegation = records.delegation(i);
        let writer = delegation.writer;
        let owner = records.lookup.follow_name(sheet, writer, delegation.owner)?;
        let delegatee = records
            .lookup
            .follow_name(sheet, writer, delegation.delegatee)?;
        Some(KeyDelegation {
            writer: Key(records.lookup.keys[writer.0]),
            owner,
            wanted: delegation.wanted,
            delegatee,
            depth: delegation.depth,
        })
    }

    fn write(self, out: &mut [u8]) -> usize {
        write_key_delegation(out, self)
    }
}
