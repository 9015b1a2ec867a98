// The listed bindings, each entered into a sheet once its target leads to a key by those before it.
ghost use Rattle.std.specs.Prelude.{◌≤◌, length};
ghost use Rattle.table.specs.ReadTable.{table_at};
ghost use Rattle.checker.specs.Walks.{Blank, EntersAll};

use records::fields::read_field;
use sheet::names::Names;

// Enters the bindings whose numbers stand from a place on; answers whether all could be entered. (An Option of nothing would be no plainer.)
pub fn enter_listed(
    names: &Names<'_>,
    derivation: &[u8],
    from: usize,
    count: usize,
    sheet: &mut [u32],
) -> bool
    requires { (length names.now.packed.now ≤ length sheet.old) × Blank (table_at names.now.table.now).names sheet.old }
    ensures { EntersAll (table_at names.now.table.now).names derivation.now from count sheet.new result }
{
    let mut at = from;
    for _ in 0..count {
        let Ok((value, next)) = read_field(derivation, at, 0, 255) else {
            return false;
        };
        let which = value as usize;
        if which >= names.packed.len() {
            return false;
        }
        let Some(key) = names.meaning(sheet, which) else {
            return false;
        };
        sheet[which] = key.0;
        at = next;
    }
    true
}
