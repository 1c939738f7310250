// Theorems about the rules alone: tables stay valid whatever the history. The crate has no code; its theorems stand in specs/.
#![tactic(auto)]
