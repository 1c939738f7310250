// A call that has found a level: the first of that level's list is taken.
ghost use Rattle.std.specs.Prelude.{◌≡◌, List, ℕ};
ghost use Rattle.rules.specs.declared.Device.{Device};
ghost use Rattle.rules.specs.Tables.{state};
ghost use Rattle.rules.specs.Steps.{outcome, take_step};
ghost use Rattle.step_take.specs.TakeNeeds.{Takes};

use rules::{Answer, Call};
use shape::Shape;

// Take: the first of the found level's list becomes ALLOCATING and in hand; if the list has emptied, the call is asked again.
#[tactic(auto, unfolding(rules::specs::Steps::take_step, rules::specs::Steps::take_from))]
pub fn take_step(
    s: Shape,
    states: &mut [u8],
    lists: &mut [u16],
    calls: &mut [u64],
    t: usize,
    c: Call,
) -> Answer
    requires { Takes s states.old lists.old calls.old t c }
    ensures { (owners queue : List ℕ) (d : Device) → outcome (Ok result) (state states.new owners lists.new calls.new queue d) ≡ take_step s (state states.old owners lists.old calls.old queue d) t c }
{
    let l = c.level;
    if lists[l] == 0 {
        tables_threads::call::put_call(calls, t, c.moved(rules::ASKED, 0));
        return Answer::Again;
    }
    let b = tables_pool::first(s, lists, l);
    tables_pool::drop_first(s, lists, l);
    tables_pool::states::put_state(s, states, l, b, rules::ALLOCATING);
    tables_threads::call::put_call(calls, t, Call::holding(rules::DIVIDING, c.size, l, b));
    Answer::Taken(s.id(l, b))
}
