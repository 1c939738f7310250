// A call that divides: split above its target, grant at it.
ghost use Rattle.std.specs.Prelude.{◌≡◌, List, ℕ};
ghost use Rattle.rules.specs.declared.Device.{Device};
ghost use Rattle.rules.specs.Tables.{state};
ghost use Rattle.rules.specs.Steps.{outcome, split_step, grant_step, divide_step};
ghost use Rattle.step_take.specs.TakeNeeds.{Splits, Grants, Divides};

use rules::{Answer, Call};
use shape::Shape;

// Split: the block becomes DIVIDED, its first part ALLOCATING and in hand, the others FREE and listed.
#[tactic(auto, unfolding(rules::specs::Steps::split_step, shape::specs::Limits::parts))]
pub fn split_step(
    s: Shape,
    states: &mut [u8],
    lists: &mut [u16],
    calls: &mut [u64],
    t: usize,
    c: Call,
) -> Answer
    requires { Splits s states.old lists.old calls.old t c }
    ensures { (owners queue : List ℕ) (d : Device) → outcome (Ok result) (state states.new owners lists.new calls.new queue d) ≡ split_step s (state states.old owners lists.old calls.old queue d) t c }
{
    let l = c.level;
    let b = c.block;
    let first = Shape::PARTS * b;
    tables_pool::states::split_states(s, states, l, b);
    tables_pool::append_parts(s, lists, l + 1, first + 1);
    tables_threads::call::put_call(
        calls,
        t,
        Call::holding(rules::DIVIDING, c.size, l + 1, first),
    );
    Answer::Split(s.id(l + 1, first))
}

// Grant: the block becomes ALLOCATED with its owner, and the call closes.
#[tactic(auto, unfolding(rules::specs::Steps::grant_step))]
pub fn grant_step(
    s: Shape,
    states: &mut [u8],
    owners: &mut [u8],
    calls: &mut [u64],
    t: usize,
    c: Call,
) -> Answer
    requires { Grants s states.old owners.old calls.old t c }
    ensures { (lists queue : List ℕ) (d : Device) → outcome (Ok result) (state states.new owners.new lists calls.new queue d) ≡ grant_step s (state states.old owners.old lists calls.old queue d) t c }
{
    let l = c.level;
    let b = c.block;
    tables_pool::states::put_state(s, states, l, b, rules::ALLOCATED);
    tables_pool::states::put_state(s, owners, l, b, (t + 1) as u8);
    tables_threads::call::put_call(calls, t, Call::closed());
    Answer::Granted(s.id(l, b))
}

// A dividing call goes on: split above its target, grant at it.
#[tactic(auto, unfolding(rules::specs::Steps::divide_step))]
pub fn divide_step(
    s: Shape,
    states: &mut [u8],
    owners: &mut [u8],
    lists: &mut [u16],
    calls: &mut [u64],
    t: usize,
    c: Call,
) -> Answer
    requires { Divides s states.old owners.old lists.old calls.old t c }
    ensures { (queue : List ℕ) (d : Device) → outcome (Ok result) (state states.new owners.new lists.new calls.new queue d) ≡ divide_step s (state states.old owners.old lists.old calls.old queue d) t c }
{
    let target = s.level_for(c.size);
    if c.level < target {
        return split_step(s, states, lists, calls, t, c);
    }
    grant_step(s, states, owners, calls, t, c)
}
