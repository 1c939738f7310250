ghost use Rattle.std.specs.Prelude.{◌≡◌, not, ◌+◌, ◌*◌, ◌-◌, ◌≤◌, length};
ghost use Rattle.laws.specs.Lists.{keep};
ghost use Rattle.rules.specs.Numbers.{CELLS};
ghost use Rattle.rules.specs.Tables.{queue_of, put_queue};
ghost use Rattle.rules.specs.Steps.{wake};
ghost use Rattle.rules.specs.Calls.{due};
ghost use Rattle.facts.specs.Queue.{QueueReady};
ghost use Rattle.facts.specs.Wake.{MembersInside, AllAwake, DueAwake};

use crate::call::call_of;
use rules::{ASKED, CELLS, TIMED};

// Every thread that the queue names becomes ready and asked; their number is answered.
fn wake_queued(calls: &mut [u64], queue: &[u8]) -> usize
    requires { MembersInside calls.old queue.now }
    ensures { (calls.new ≡ wake calls.old (queue_of queue.now))
        × (result ≡ length (queue_of queue.now)) }
{
    let end = queue[0] as usize;
    for &t in &queue[1..=end] {
        calls[CELLS * t as usize] = ASKED as u64;
    }
    end
}

// Every waiting thread becomes ready and asked, and the queue is empty; their number is answered.
pub fn wake_all(calls: &mut [u64], queue: &mut [u8]) -> usize
    requires { MembersInside calls.old queue.old }
    ensures { AllAwake calls.old queue.old calls.new queue.new result }
{
    let woken = wake_queued(calls, queue);
    crate::queue::empty(queue);
    woken
}

// Thread t waits for a time, and this is it.
fn is_due(calls: &[u64], t: usize, clock: usize) -> bool
    requires { CELLS * t + CELLS ≤ length calls.now }
    ensures { result ≡ due calls.now clock t }
{
    let call = call_of(calls, t);
    (call.wait == TIMED) & (call.deadline == clock)
}

// The queue's threads that are due become ready and asked; their number is answered. Not one with
// `wake_queued`, which makes no test, and whose number is the queue's own.
fn wake_those_due(calls: &mut [u64], queue: &[u8], clock: usize) -> usize
    requires { MembersInside calls.old queue.now }
    ensures { (calls.new ≡ wake calls.old (keep (due calls.old clock) (queue_of queue.now)))
        × (result ≡ length (keep (due calls.old clock) (queue_of queue.now))) }
{
    let end = queue[0] as usize;
    let mut woken = 0;
    for &t in &queue[1..=end] {
        if is_due(calls, t as usize, clock) {
            calls[CELLS * t as usize] = ASKED as u64;
            woken += 1;
        }
    }
    woken
}

// Those that are due leave the queue, the rest keeping their order. By index, since it reads and writes one slice.
fn keep_waiting(calls: &[u64], queue: &mut [u8], clock: usize)
    requires queue_ready { QueueReady queue.old }
    requires members_inside { MembersInside calls.now queue.old }
    ensures { queue.new
        ≡ put_queue (length queue.old - 1)
        (keep (λ t. not (due calls.now clock t)) (queue_of queue.old)) }
{
    let end = queue[0] as usize;
    let mut kept = 0;
    for i in 0..end {
        let t = queue[i + 1];
        queue[i + 1] = 0;
        if !is_due(calls, t as usize, clock) {
            queue[kept + 1] = t;
            kept += 1;
        }
    }
    queue[0] = kept as u8;
}

// The tick's work at the new clock: the queue's threads that are due become ready and asked and leave it; their number is answered.
pub fn wake_due(calls: &mut [u64], queue: &mut [u8], clock: usize) -> usize
    requires queue_ready { QueueReady queue.old }
    requires members_inside { MembersInside calls.old queue.old }
    ensures { DueAwake calls.old queue.old clock calls.new queue.new result }
{
    let woken = wake_those_due(calls, queue, clock);
    keep_waiting(calls, queue, clock);
    woken
}
