// Theorems about one request that may not wait: it ends, and when it is granted. The crate has no code; its theorems stand in specs/.
#![tactic(auto)]
