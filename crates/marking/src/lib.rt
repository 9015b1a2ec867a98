// Which bindings a derivation needs: those that its names go through, and whatever the targets of these go through in turn.
#![tactic(auto)]

pub mod keeping;
pub mod needed;
pub mod through;
