// What map lists divides a valid pool's bytes among its undivided blocks, and bytes by state sum to the pool's. The crate has no code; its
// theorems stand in specs/.
#![tactic(auto)]
