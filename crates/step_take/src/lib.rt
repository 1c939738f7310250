// The steps of a call that takes a block, on tables that are known to be valid: look, take, split and grant.
#![tactic(auto)]

pub mod divide;
pub mod look;
pub mod take;
