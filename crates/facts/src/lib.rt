// What follows from the rules: of valid tables line by line, of the free lists, the calls, the queue and waking, and of a thread that runs.
// The crate has no code; its laws stand in specs/.
#![tactic(auto)]
