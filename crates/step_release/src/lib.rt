// The steps of a call that releases a block, on tables that are known to be valid: merge and settle.
#![tactic(auto)]

pub mod release;
