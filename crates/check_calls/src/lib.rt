// Whether each call by itself is one of a valid state.
#![tactic(auto)]

pub mod call;

ghost use Rattle.std.specs.Prelude.{◌≡◌, true, ◌*◌, ◌<◌, ◌^◌, length};
ghost use Rattle.shape.specs.Limits.{allowed};
ghost use Rattle.rules.specs.Numbers.{CELLS};
ghost use Rattle.rules.specs.Valid.{calls_kept};

use shape::Shape;
use tables_threads::call::call_of;

// Whether all that is said of each call by itself holds.
pub fn calls_valid(s: Shape, clock: usize, calls: &[u64]) -> bool
    requires { (allowed s ≡ true) × (clock < 2 ^ 32) × (length calls.now ≡ CELLS * s.threads) }
    ensures { result ≡ calls_kept s clock calls.now }
{
    let mut ok = true;
    for t in 0..s.threads {
        ok &= call::call_kept(s, clock, call_of(calls, t));
    }
    ok
}
