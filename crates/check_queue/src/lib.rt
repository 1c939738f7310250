// Whether the queue and the running thread are those of a valid state.
#![tactic(auto)]

mod queue;

ghost use Rattle.std.specs.Prelude.{◌≡◌, ◌&&◌, ◌+◌, ◌*◌, length};
ghost use Rattle.rules.specs.Numbers.{CELLS};
ghost use Rattle.rules.specs.Valid.{queue_ends, waiters_queued, running_ready};

use rules::Device;
use shape::Shape;

// Whether the queue's end, the blocked threads in it and the running thread are as they must be.
pub fn queue_valid(s: Shape, calls: &[u64], queue: &[u8], device: Device) -> bool
    requires { (length calls.now ≡ CELLS * s.threads) × (length queue.now ≡ s.threads + 1) }
    ensures { result ≡ (queue_ends s queue.now && waiters_queued s calls.now queue.now && running_ready s calls.now device) }
{
    if !queue::queue_ends(s, queue) {
        return false;
    }
    queue::waiters_queued(s, calls, queue) & queue::running_ready(s, calls, device)
}
