// Which bindings a derivation needs: those that the subject and the paths of its chain go through, and whatever these need.
ghost use Rattle.std.specs.Prelude.{◌<◌, ◌≤◌, length};
ghost use Rattle.rules.specs.Sheets.{Exact};
ghost use Rattle.records.specs.Targets.{target_of};
ghost use Rattle.table.specs.ReadTable.{table_at};
ghost use Rattle.sheet.specs.Finds.{FittingTarget};
ghost use Rattle.marking.specs.Needed.{Listed};
ghost use Rattle.decision.specs.Showing.{AccessMarked, DelegationMarked, ChainMarked, AllWritten, Unmarked, AllMarked};

use marking::needed::mark_needed;
use marking::through::{mark_name, mark_target};
use matching::good::{Good, Records};
use records::targets::Target;

// Marks the bindings that the path of access record number `i` goes through.
pub fn mark_access(records: &Records<'_>, sheet: &[u32], marks: &mut [bool], i: usize)
    requires { Exact (table_at records.now.table.now).names sheet.now × (length records.now.lookup.packed.now ≤ length sheet.now) × (length records.now.lookup.packed.now ≤ length marks.old)
        × (i < length (table_at records.now.table.now).accesses) }
    ensures { AccessMarked (table_at records.now.table.now) i marks.old marks.new }
{
    let access = records.access(i);
    mark_name(&records.lookup, sheet, marks, access.owner, access.path);
}

// Marks the bindings that the paths of delegation number `j` go through.
pub fn mark_delegation(records: &Records<'_>, sheet: &[u32], marks: &mut [bool], j: usize)
    requires { Exact (table_at records.now.table.now).names sheet.now × (length records.now.lookup.packed.now ≤ length sheet.now) × (length records.now.lookup.packed.now ≤ length marks.old)
        × (j < length (table_at records.now.table.now).delegations) }
    ensures { DelegationMarked (table_at records.now.table.now) j marks.old marks.new }
{
    let delegation = records.delegation(j);
    let writer = delegation.writer;
    mark_name(&records.lookup, sheet, marks, writer, delegation.owner);
    mark_name(&records.lookup, sheet, marks, writer, delegation.delegatee);
}

// Marks the bindings that the paths of the chain's delegations go through.
pub fn mark_chain(records: &Records<'_>, sheet: &[u32], marks: &mut [bool], chain: &[u16])
    requires { Exact (table_at records.now.table.now).names sheet.now × (length records.now.lookup.packed.now ≤ length sheet.now) × (length records.now.lookup.packed.now ≤ length marks.old)
        × AllWritten (table_at records.now.table.now) chain.now }
    ensures { ChainMarked (table_at records.now.table.now) chain.now marks.old marks.new }
{
    for j in chain {
        mark_delegation(records, sheet, marks, *j as usize);
    }
}

// Marks what a derivation of the chain for the subject needs, of the bindings that are listed.
pub fn mark_all(
    good: &Good<'_>,
    sheet: &[u32],
    order: &[u16],
    subject: Target,
    access: usize,
    chain: &[u16],
    marks: &mut [bool],
)
    requires { Listed (table_at good.now.names.table.now).names sheet.now order.now × (length good.now.names.packed.now ≤ length sheet.now) × (length good.now.names.packed.now ≤ length marks.old)
        × Unmarked marks.old × FittingTarget (length good.now.names.keys.now) subject × (access < length (table_at good.now.names.table.now).accesses)
        × AllWritten (table_at good.now.names.table.now) chain.now }
    ensures { AllMarked (table_at good.now.names.table.now) (target_of subject) access chain.now order.now marks.new }
{
    mark_target(&good.names.lookup(), sheet, marks, subject);
    let records = good.records();
    mark_access(&records, sheet, marks, access);
    mark_chain(&records, sheet, marks, chain);
    mark_needed(&good.names, sheet, order, marks);
}
