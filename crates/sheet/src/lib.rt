// The name sheet: what each binding's target means, round by round; and following a path by it.
#![tactic(auto)]

pub mod filling;
pub mod following;
pub mod names;
