// The steps that open a call, on tables that are known to be valid.
#![tactic(auto)]

pub mod ask;
pub mod give;
pub mod held;
