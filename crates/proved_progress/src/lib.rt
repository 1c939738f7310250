// Theorems about what a call comes to: a granted block fits, who waits, and how many steps end a call with a block in hand.
// The crate has no code; its theorems stand in specs/.
#![tactic(auto)]
