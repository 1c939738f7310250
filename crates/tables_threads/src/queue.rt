// The queue as C lends it: how many wait, and behind that number who.
ghost use Rattle.std.specs.Prelude.{◌≡◌, [], ◌∷◌, ◌++◌, ◌+◌, ◌-◌, ◌≤◌, ◌<◌, length, get_or};
ghost use Rattle.shape.specs.Limits.{most_threads};
ghost use Rattle.rules.specs.Tables.{queue_of, put_queue};
ghost use Rattle.facts.specs.Queue.{QueueReady};

// How many threads wait.
pub fn waiting_count(queue: &[u8]) -> usize
    requires { get_or queue.now 0 0 + 1 ≤ length queue.now }
    ensures { result ≡ length (queue_of queue.now) }
{
    queue[0] as usize
}

// Thread t joins the queue's end.
pub fn join(queue: &mut [u8], t: usize)
    requires queue_ready { QueueReady queue.old }
    requires queue_in_bounds { (get_or queue.old 0 0 + 1 < length queue.old) × (length queue.old ≤ most_threads + 1) × (t < 256) }
    ensures { queue.new ≡ put_queue (length queue.old - 1) (queue_of queue.old ++ (t ∷ [])) }
{
    let end = queue[0] as usize + 1;
    queue[end] = t as u8;
    queue[0] = end as u8;
}

// Nobody waits: every place holds zero.
pub fn empty(queue: &mut [u8])
    requires { 1 ≤ length queue.old }
    ensures { queue.new ≡ put_queue (length queue.old - 1) [] }
{
    queue.fill(0);
}
