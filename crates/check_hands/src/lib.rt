// Whether the blocks in hand are those of a valid state, by a flag and sums: check_calls/src/call.rt says what early returns cost.
#![tactic(auto)]

ghost use Rattle.std.specs.Prelude.{◌≡◌, true, ◌&&◌, ◌*◌, length};
ghost use Rattle.shape.specs.Limits.{allowed};
ghost use Rattle.shape.specs.Blocks.{blocks};
ghost use Rattle.rules.specs.Numbers.{CELLS, FREEING, ALLOCATING};
ghost use Rattle.rules.specs.Valid.{dividing, releasing, one_to_one};
ghost use Rattle.check_hands.specs.Hands.{hands_inside, hand_known, at_stage, holders, alone_with, Lent};

use check_counts::count_of;
use rules::Call;
use shape::Shape;
use tables_threads::call::call_of;

// How many calls at a stage have this block in hand.
fn holders(s: Shape, calls: &[u64], stage: usize, level: usize, block: usize) -> usize
    requires { length calls.now ≡ CELLS * s.threads }
    ensures { result ≡ holders s calls.now (at_stage stage) level block }
{
    let mut sum = 0;
    for t in 0..s.threads {
        let c = call_of(calls, t);
        sum += ((c.stage == stage) & (c.level == level) & (c.block == block)) as usize;
    }
    sum
}

// Whether a call has a block of a state in hand, which no other call at its stage has.
fn alone(s: Shape, states: &[u8], calls: &[u64], c: Call, state: u8) -> bool
    requires { Lent s states.now calls.now × hand_known s c }
    ensures { result ≡ alone_with s states.now calls.now state (at_stage c.stage) c }
{
    let place = s.place(c.level, c.block);
    (states[place] == state) & (holders(s, calls, c.stage, c.level, c.block) == 1)
}

// Whether ALLOCATING blocks correspond to dividing calls and FREEING blocks to releasing calls, one to one: each such call is alone with a
// block of that state, and there are as many blocks as calls.
pub fn hands_valid(s: Shape, states: &[u8], calls: &[u64]) -> bool
    requires { (allowed s ≡ true) × (length states.now ≡ blocks s) × (length calls.now ≡ CELLS * s.threads) × (hands_inside s calls.now ≡ true) }
    ensures { result ≡ (one_to_one ALLOCATING dividing s states.now calls.now && one_to_one FREEING releasing s states.now calls.now) }
{
    let mut ok = true;
    let mut sum = 0;
    for t in 0..s.threads {
        let c = call_of(calls, t);
        let state = match c.stage {
            rules::DIVIDING => rules::ALLOCATING,
            rules::RELEASING => rules::FREEING,
            _ => continue,
        };
        ok &= alone(s, states, calls, c, state);
        sum += 1;
    }
    (count_of(states, rules::ALLOCATING, rules::FREEING) == sum) & ok
}
