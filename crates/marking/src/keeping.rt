// Keeping the marked numbers of a list, in their order.
ghost use Rattle.std.specs.Prelude.{◌≡◌, ◌<◌, ◌≤◌, length};
ghost use Rattle.marking.specs.Marks.{marked};
ghost use Rattle.marking.specs.Kept.{Kept, KeptOn};

// Whether binding number `i` is marked.
pub fn is_marked(marks: &[bool], i: usize) -> bool
    ensures { result ≡ marked marks.now i }
{
    marks.get(i).copied().unwrap_or(false)
}

// Puts number `i` of the list behind those that are kept already, if it is marked; answers how many are kept then.
fn keep_one(marks: &[bool], order: &mut [u16], i: usize, kept: usize) -> usize
    requires { (i < length order.old) × (kept ≤ i) }
    ensures { KeptOn marks.now i order.old kept order.new result }
{
    let number = order[i];
    if !is_marked(marks, usize::from(number)) {
        return kept;
    }
    order[kept] = number;
    kept + 1
}

// Of the list keeps those that are marked, at its start; answers how many they are.
pub fn keep_marked(marks: &[bool], order: &mut [u16]) -> usize
    ensures { Kept marks.now order.old (length order.old) order.new result }
{
    let mut kept = 0;
    for i in 0..order.len() {
        kept = keep_one(marks, order, i, kept);
    }
    kept
}
