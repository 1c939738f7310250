// Go on, on tables that are known to be valid: the step of the call's stage.
#![tactic(auto)]

pub mod go_on;
