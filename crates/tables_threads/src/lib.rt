// The threads' tables, place by place: a thread's call, the queue, and who wakes.
#![tactic(auto)]

pub mod call;
pub mod queue;
pub mod wake;
