// What holds of a valid pool's blocks as trees: one block over each byte, and free runs, for any number of parts, levels and top blocks.
// The crate has no code; its theorems stand in specs/.
#![tactic(auto)]
