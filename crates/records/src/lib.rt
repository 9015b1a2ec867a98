// One record of each kind, read from the bytes that begin at it, and written: a module for each.
#![tactic(auto)]

pub mod accesses;
pub mod bindings;
pub mod delegations;
pub mod derivations;
pub mod faults;
pub mod fields;
pub mod keys;
pub mod passing;
pub mod paths;
pub mod reader;
pub mod requests;
pub mod rows;
pub mod targets;
