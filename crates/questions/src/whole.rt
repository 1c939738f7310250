// Whole: every top block is FREE, and no thread has a call open.
ghost use Rattle.std.specs.Prelude.{◌≡◌, true, List, ℕ, ◌*◌, ◌≤◌, length, get_or, eqb};
ghost use Rattle.laws.specs.Tests.{every};
ghost use Rattle.shape.specs.Limits.{allowed};
ghost use Rattle.shape.specs.Blocks.{blocks};
ghost use Rattle.rules.specs.declared.Device.{Device};
ghost use Rattle.rules.specs.Numbers.{FREE, CLOSED, CELLS};
ghost use Rattle.rules.specs.Tables.{state, call_of};
ghost use Rattle.rules.specs.Questions.{is_whole};

use shape::Shape;
use tables_threads::call::call_of;

// Whether the top blocks, which stand first, are FREE.
fn tops_free(states: &[u8], tops: usize) -> bool
    requires { tops ≤ length states.now }
    ensures { result ≡ every tops (λ b. eqb (get_or states.now b 0) FREE) }
{
    let mut free = true;
    for &state in &states[..tops] {
        free &= state == rules::FREE;
    }
    free
}

// Whether no thread has a call open. This pass and the one above have no branch for each cell: with early returns, 16 top blocks and
// eight calls took 9.8 ns, and not 8.5.
fn none_open(calls: &[u64], threads: usize) -> bool
    requires { CELLS * threads ≤ length calls.now }
    ensures { result ≡ every threads (λ t. eqb (call_of calls.now t).stage CLOSED) }
{
    let mut closed = true;
    for t in 0..threads {
        closed &= call_of(calls, t).stage == rules::CLOSED;
    }
    closed
}

// Whether the pool is whole.
pub fn is_whole(s: Shape, states: &[u8], calls: &[u64]) -> bool
    requires { (allowed s ≡ true) × (length states.now ≡ blocks s) × (length calls.now ≡ CELLS * s.threads) }
    ensures { (owners lists queue : List ℕ) (device : Device) →
        result ≡ is_whole s (state states.now owners lists calls.now queue device) }
{
    tops_free(states, s.tops) && none_open(calls, s.threads)
}
