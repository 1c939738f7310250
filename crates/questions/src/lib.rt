// The three questions on tables that are known to be valid: whole, cover and map.
#![tactic(auto)]

pub mod cover;
pub mod map;
pub mod whole;
