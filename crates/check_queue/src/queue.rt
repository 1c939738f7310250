// The queue and the running thread, by flags and sums: check_calls/src/call.rt says what early returns cost.
ghost use Rattle.std.specs.Prelude.{◌≡◌, ◌+◌, ◌*◌, ◌≤◌, length, get_or};
ghost use Rattle.laws.specs.Tests.{every};
ghost use Rattle.laws.specs.Lists.{times};
ghost use Rattle.rules.specs.Numbers.{CELLS};
ghost use Rattle.rules.specs.Tables.{queue_of};
ghost use Rattle.rules.specs.Valid.{queue_ends, waiters_queued, running_ready};
ghost use Rattle.check_queue.specs.Queue.{known, named};

use rules::Device;
use shape::Shape;
use tables_threads::call::call_of;
use tables_threads::queue::waiting_count;

// Whether the queue is no longer than there are threads, with zeros behind its end.
pub fn queue_ends(s: Shape, queue: &[u8]) -> bool
    requires { length queue.now ≡ s.threads + 1 }
    ensures { result ≡ queue_ends s queue.now }
{
    let end = usize::from(queue[0]);
    let mut ok = end <= s.threads;
    for (i, &entry) in queue[1..].iter().enumerate() {
        ok &= (i < end) | (entry == 0);
    }
    ok
}

// The members of the queue.
fn members(queue: &[u8]) -> &[u8]
    requires { get_or queue.now 0 0 + 1 ≤ length queue.now }
    ensures { result.now ≡ queue_of queue.now }
{
    &queue[1..=waiting_count(queue)]
}

// Whether every member of the queue is a thread of the shape.
fn members_known(s: Shape, queue: &[u8]) -> bool
    requires { get_or queue.now 0 0 + 1 ≤ length queue.now }
    ensures { result ≡ every (length (queue_of queue.now)) (known s.threads queue.now) }
{
    let mut ok = true;
    for &member in members(queue) {
        ok &= usize::from(member) < s.threads;
    }
    ok
}

// How often a thread stands in the queue.
fn times_queued(thread: usize, queue: &[u8]) -> usize
    requires { get_or queue.now 0 0 + 1 ≤ length queue.now }
    ensures { result ≡ times thread (queue_of queue.now) }
{
    let mut found = 0;
    for &member in members(queue) {
        found += (thread == usize::from(member)) as usize;
    }
    found
}

// Whether each thread stands in the queue once where its call is waiting, and nowhere otherwise.
fn waiters_once(s: Shape, calls: &[u64], queue: &[u8]) -> bool
    requires { (length calls.now ≡ CELLS * s.threads) × (get_or queue.now 0 0 + 1 ≤ length queue.now) }
    ensures { result ≡ every s.threads (named calls.now queue.now) }
{
    let mut ok = true;
    for t in 0..s.threads {
        let waits = call_of(calls, t).stage == rules::WAITING;
        ok &= times_queued(t, queue) == usize::from(waits);
    }
    ok
}

// Whether the queue names each blocked thread once and nothing else.
pub fn waiters_queued(s: Shape, calls: &[u64], queue: &[u8]) -> bool
    requires { (length calls.now ≡ CELLS * s.threads) × (get_or queue.now 0 0 + 1 ≤ length queue.now) }
    ensures { result ≡ waiters_queued s calls.now queue.now }
{
    members_known(s, queue) & waiters_once(s, calls, queue)
}

// Whether the running thread, if there is one, is a thread of the shape and isn't blocked.
pub fn running_ready(s: Shape, calls: &[u64], device: Device) -> bool
    requires { length calls.now ≡ CELLS * s.threads }
    ensures { result ≡ running_ready s calls.now device }
{
    let running = device.running as usize;
    if running == 0 {
        return true;
    }
    if s.threads < running {
        return false;
    }
    call_of(calls, running - 1).stage != rules::WAITING
}
