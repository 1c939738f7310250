// The steps that change the record of clock and running thread, on tables that are known to be valid.
#![tactic(auto)]

pub mod switch;
pub mod tick;
