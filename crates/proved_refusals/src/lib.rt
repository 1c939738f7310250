// Demand 1, of the rules: which answers a call gives, and what a refusal leaves. The crate has no code; its theorem stands in specs/.
#![tactic(auto)]
