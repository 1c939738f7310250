// Go on, by the call's stage.
ghost use Rattle.std.specs.Prelude.{◌≡◌};
ghost use Rattle.rules.specs.Tables.{state, call_of};
ghost use Rattle.rules.specs.Steps.{outcome, go_on_step};
ghost use Rattle.step_go_on.specs.GoesOn.{GoesOn};

use rules::{Answer, Device, Refusal};
use shape::Shape;

// Go on by a thread that runs and has a call open, on valid tables.
#[tactic(auto, unfolding(rules::specs::Steps::go_on_step))]
pub fn go_on_step(
    d: &mut Device,
    s: Shape,
    states: &mut [u8],
    owners: &mut [u8],
    lists: &mut [u16],
    calls: &mut [u64],
    queue: &mut [u8],
    t: usize,
) -> Result<Answer, Refusal>
    requires { GoesOn s (state states.old owners.old lists.old calls.old queue.old d.old) t }
    ensures { outcome result (state states.new owners.new lists.new calls.new queue.new d.new) ≡ go_on_step s (state states.old owners.old lists.old calls.old queue.old d.old) t (call_of calls.old t) }
{
    let c = tables_threads::call::call_of(calls, t);
    match c.stage {
        rules::ASKED => step_take::look::look_step(d, s, lists, calls, queue, t, c),
        rules::FOUND => Ok(step_take::take::take_step(s, states, lists, calls, t, c)),
        rules::DIVIDING => {
            let answer = step_take::divide::divide_step(s, states, owners, lists, calls, t, c);
            Ok(answer)
        }
        _ => {
            let answer = step_release::release::release_step(s, states, lists, calls, queue, t, c);
            Ok(answer)
        }
    }
}
