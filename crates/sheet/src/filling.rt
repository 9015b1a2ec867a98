// Filling the sheet: round by round, each entry from those that stand already, until a round changes nothing.
ghost use Rattle.std.specs.Prelude.{◌≡◌, ◌<◌, ◌≤◌, length};
ghost use Rattle.rules.specs.Sheets.{entry};
ghost use Rattle.rules.specs.Filling.{AtRest};
ghost use Rattle.table.specs.ReadTable.{table_at};
ghost use Rattle.sheet.specs.Listings.{Opening, Leading, Listing, Waiting, Rests, Turn, Round, Filled};

use crate::following::Walked;
use crate::names::Names;
use records::bindings::read_binding;
use rules::Key;

// Whether entry `i` is filled, or waits for one that is still 0.
fn rests(sheet: &[u32], waits: &[u32], i: usize) -> bool
    requires { (i < length sheet.now) × (i < length waits.now) × (entry waits.now i ≤ length sheet.now) }
    ensures { Rests sheet.now waits.now i result }
{
    sheet[i] != 0 || waits[i] != 0 && sheet[waits[i] as usize - 1] == 0
}

impl<'a> Names<'a> {
    // Where the target of binding number `i` leads.
    fn open_binding(&self, sheet: &[u32], i: usize) -> Walked
        requires { (length self.now.packed.now ≤ length sheet.now) × (i < length self.now.packed.now) }
        ensures { Opening (table_at self.now.table.now).names sheet.now i result }
    {
        let place = self.bindings[i] as usize;
        match read_binding(&self.table[place..], self.keys.len(), &self.packed[..0]) {
            Ok((binding, _)) => self.lookup().walk_target(sheet, binding.target),
            Err(_) => Walked::Nothing,
        }
    }

    // The key that the target of binding number `i` leads to.
    pub fn meaning(&self, sheet: &[u32], i: usize) -> Option<Key>
        requires { (length self.now.packed.now ≤ length sheet.now) × (i < length self.now.packed.now) }
        ensures { Leading (table_at self.now.table.now).names sheet.now i result }
    {
        self.open_binding(sheet, i).for_now()
    }

    // Fills entry `i` if its target leads to a key, or else keeps what it waits for; answers how many are listed then.
    // The count stands beside the row, for the rows are fixed: no heap.
    fn fill_entry(
        &self,
        sheet: &mut [u32],
        order: &mut [u16],
        waits: &mut [u32],
        i: usize,
        listed: usize,
    ) -> usize
        requires { Listing (table_at self.now.table.now).names sheet.old order.old listed × Waiting (table_at self.now.table.now).names sheet.old waits.old × (i < length self.now.packed.now) }
        ensures listing { Listing (table_at self.now.table.now).names sheet.new order.new result }
        ensures turn { Turn (table_at self.now.table.now).names i sheet.old sheet.new listed result }
        ensures waiting { Waiting (table_at self.now.table.now).names sheet.new waits.new }
    {
        if rests(sheet, waits, i) {
            return listed;
        }
        match self.open_binding(sheet, i) {
            Walked::Key(key) => {
                sheet[i] = key.0;
                order[listed] = i as u16;
                return listed + 1;
            }
            Walked::Waits(j) => {
                waits[i] = (j + 1) as u32;
                return listed;
            }
            Walked::Nothing => {
                waits[i] = (i + 1) as u32;
                return listed;
            }
        }
    }

    // One round over the bindings; answers how many are listed then. The count stands beside the row, as above.
    fn round(&self, sheet: &mut [u32], order: &mut [u16], waits: &mut [u32], listed: usize) -> usize
        requires { Listing (table_at self.now.table.now).names sheet.old order.old listed × Waiting (table_at self.now.table.now).names sheet.old waits.old }
        ensures round { Round (table_at self.now.table.now).names listed sheet.new order.new (length self.now.packed.now) result }
        ensures waiting { Waiting (table_at self.now.table.now).names sheet.new waits.new }
    {
        let mut n = listed;
        for i in 0..self.packed.len() {
            n = self.fill_entry(sheet, order, waits, i, n);
        }
        n
    }

    // Rounds until one changes nothing, over a sheet of one entry per binding.
    fn fill_all(&self, sheet: &mut [u32], order: &mut [u16], waits: &mut [u32]) -> usize
        requires { (length sheet.old ≡ length self.now.packed.now) × (length self.now.packed.now ≤ length order.old) × (length self.now.packed.now ≤ length waits.old) }
        ensures { Listing (table_at self.now.table.now).names sheet.new order.new result × AtRest (table_at self.now.table.now).names sheet.new }
    {
        sheet.fill(0);
        waits.fill(0);
        let mut listed = 0;
        while listed < self.packed.len() {
            let now = self.round(sheet, order, waits, listed);
            if now == listed {
                return listed;
            }
            listed = now;
        }
        listed
    }

    // Fills the first entries of the sheet, one per binding; answers how many bindings are listed in `order`. In `waits` it keeps what a binding waits for.
    pub fn fill(&self, sheet: &mut [u32], order: &mut [u16], waits: &mut [u32]) -> usize
        requires { (length self.now.packed.now ≤ length sheet.old) × (length self.now.packed.now ≤ length order.old) × (length self.now.packed.now ≤ length waits.old) }
        ensures { Filled (table_at self.now.table.now).names sheet.old sheet.new order.new result }
    {
        let count = self.packed.len();
        self.fill_all(&mut sheet[..count], order, &mut waits[..count])
    }
}
