// Decisions, lists, counts and sums: what is said of pools in the crates above, said once of plain values.
// The crate has no code; its definitions and laws stand in specs/.
#![tactic(auto)]
