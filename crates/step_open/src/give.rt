// Give back: the block becomes FREEING without owner, the call releasing.
ghost use Rattle.std.specs.Prelude.{◌≡◌, List, ℕ};
ghost use Rattle.rules.specs.declared.Device.{Device};
ghost use Rattle.rules.specs.Tables.{state};
ghost use Rattle.rules.specs.Steps.{outcome};
ghost use Rattle.rules.specs.Calls.{given, give_step};
ghost use Rattle.step_open.specs.OpenNeeds.{Gives, GivesBlock};

use rules::{Answer, Call, Refusal};
use shape::Shape;

// Give back a block that the thread holds.
fn give_block(
    s: Shape,
    states: &mut [u8],
    owners: &mut [u8],
    calls: &mut [u64],
    t: usize,
    l: usize,
    b: usize,
)
    requires { GivesBlock s states.old owners.old calls.old t l b }
    ensures { (lists queue : List ℕ) (d : Device) → state states.new owners.new lists calls.new queue d ≡ given s (state states.old owners.old lists calls.old queue d) t l b }
{
    tables_pool::states::put_state(s, states, l, b, rules::FREEING);
    tables_pool::states::put_state(s, owners, l, b, 0);
    tables_threads::call::put_call(calls, t, Call::holding(rules::RELEASING, 0, l, b));
}

// Give back by id: refused where a call is open or the id names no block that the thread holds.
#[tactic(auto, unfolding(rules::specs::Calls::give_step))]
pub fn give_step(
    s: Shape,
    states: &mut [u8],
    owners: &mut [u8],
    calls: &mut [u64],
    t: usize,
    id: usize,
) -> Result<Answer, Refusal>
    requires { Gives s states.old owners.old calls.old t }
    ensures { (lists queue : List ℕ) (d : Device) → outcome result (state states.new owners.new lists calls.new queue d) ≡ give_step s (state states.old owners.old lists calls.old queue d) t id }
{
    let c = tables_threads::call::call_of(calls, t);
    if c.stage != rules::CLOSED {
        return Err(Refusal::CallOpen);
    }
    crate::held::held_by(s, states, owners, t, id)?;
    give_block(
        s,
        states,
        owners,
        calls,
        t,
        shape::ids::id_level(id),
        shape::ids::id_block(id),
    );
    Ok(Answer::Opened)
}
