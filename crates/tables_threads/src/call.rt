// A thread's call in its six cells of the table, which C lends.
ghost use Rattle.std.specs.Prelude.{◌≡◌, ◌+◌, ◌*◌, ◌≤◌, length};
ghost use Rattle.rules.specs.Numbers.{CELLS};
ghost use Rattle.rules.specs.Tables.{call_of, put_call};

use rules::{CELLS, Call};

// The call of thread t, read from its cells.
pub fn call_of(calls: &[u64], t: usize) -> Call
    requires { CELLS * t + CELLS ≤ length calls.now }
    ensures { result ≡ call_of calls.now t }
{
    let at = CELLS * t;
    let cells = &calls[at..at + CELLS];
    Call {
        stage: cells[0] as usize,
        size: cells[1] as usize,
        wait: cells[2] as usize,
        deadline: cells[3] as usize,
        level: cells[4] as usize,
        block: cells[5] as usize,
    }
}

// Thread t's call becomes c, the calls of the others staying as they are.
pub fn put_call(calls: &mut [u64], t: usize, c: Call)
    requires { CELLS * t + CELLS ≤ length calls.old }
    ensures { calls.new ≡ put_call calls.old t c }
{
    let at = CELLS * t;
    calls[at..at + CELLS].copy_from_slice(&[
        c.stage as u64,
        c.size as u64,
        c.wait as u64,
        c.deadline as u64,
        c.level as u64,
        c.block as u64,
    ]);
}
