// Theorems about one step of the rules: what a refusal leaves, and what a step never touches. The crate has no code; its theorems stand in specs/.
#![tactic(auto)]
