// Rows of numbers: where a number stands first.
ghost use Rattle.std.specs.Prelude.{◌≡◌, ◌+◌, ◌<◌, ◌≤◌, length, take, drop, set, MatchOption};
ghost use Rattle.records.specs.Rows.{is_among, Passed, First, mark_of, Marked};

// Whether one of the eight numbers from the place on is it. All eight are compared, so that the processor can do it at once.
fn is_near(row: &[u32], at: usize, number: u32) -> bool
    requires { at + 8 ≤ length row.now }
    ensures { result ≡ is_among (take 8 (drop at row.now)) number }
{
    (row[at] == number)
        | (row[at + 1] == number)
        | (row[at + 2] == number)
        | (row[at + 3] == number)
        | (row[at + 4] == number)
        | (row[at + 5] == number)
        | (row[at + 6] == number)
        | (row[at + 7] == number)
}

// Passes eight numbers after the other as long as none of them is it, and answers how many.
fn pass_eights(row: &[u32], number: u32) -> usize
    ensures { Passed row.now number result }
{
    let eights = row.len() / 8;
    for k in 0..eights {
        if is_near(row, 8 * k, number) {
            return 8 * k;
        }
    }
    8 * eights
}

// Where the number stands first.
pub fn find_first(row: &[u32], number: u32) -> Option<usize>
    ensures { MatchOption result (Passed row.now number (length row.now)) (λ at. First row.now number at) }
{
    let from = pass_eights(row, number);
    for at in from..row.len() {
        if row[at] == number {
            return Some(at);
        }
    }
    None
}

// Whether the number is one of these.
pub fn is_among(row: &[u32], number: u32) -> bool
    ensures { result ≡ is_among row.now number }
{
    find_first(row, number).is_some()
}

// The place of a number's mark.
fn mark_of(number: u32) -> usize
    ensures { (result ≡ mark_of number) × (result < 512) }
{
    (number % 65536 + number / 65536 * 8) as usize % 512
}

// Whether the number is one of these, which are all marked.
pub fn is_marked_among(marks: &[u16], row: &[u32], number: u32) -> bool
    requires { Marked marks.now row.now }
    ensures { result ≡ is_among row.now number }
{
    marks[mark_of(number)] != 0 && is_among(row, number)
}

// Marks the number.
pub fn mark(marks: &mut [u16], number: u32)
    requires { 512 ≤ length marks.old }
    ensures { marks.new ≡ set marks.old (mark_of number) 1 }
{
    marks[mark_of(number)] = 1;
}
