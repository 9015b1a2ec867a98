// A good table with its sheet, and what its names mean.
ghost use Rattle.std.specs.Prelude.{◌≤◌, length};

use matching::good::Good;
use sheet::names::Lookup;

#[derive(Clone, Copy)]
pub struct OpenTable<'a> {
    pub good: Good<'a>,
    pub sheet: &'a [u32],
    pub ghost room: { length good.names.packed.now ≤ length sheet.now },
}

// What names are looked up in, and the sheet, which tells what each binding means.
#[derive(Clone, Copy)]
pub struct Meanings<'a> {
    pub lookup: Lookup<'a>,
    pub sheet: &'a [u32],
    pub ghost room: { length lookup.packed.now ≤ length sheet.now },
}
