// A call that is asked: the deepest level with room is found, or the call ends, or its thread waits.
ghost use Rattle.std.specs.Prelude.{◌≡◌, List, ℕ, ◌+◌, length};
ghost use Rattle.rules.specs.Tables.{state};
ghost use Rattle.rules.specs.Steps.{outcome, no_room, look};
ghost use Rattle.step_take.specs.TakeNeeds.{Joins, Looks};

use rules::{Answer, Call, Device, Refusal};
use shape::Shape;

// No level has room: the call ends, or its thread joins the queue's end, blocked, and nobody runs.
#[tactic(auto, unfolding(rules::specs::Steps::no_room))]
pub fn no_room(
    d: &mut Device,
    calls: &mut [u64],
    queue: &mut [u8],
    t: usize,
    c: Call,
) -> Result<Answer, Refusal>
    requires { Joins calls.old queue.old t }
    ensures { (s : Shape) (states owners lists : List ℕ) → length queue.old ≡ s.threads + 1 → outcome result (state states owners lists calls.new queue.new d.new) ≡ no_room s (state states owners lists calls.old queue.old d.old) t c }
{
    match c.wait {
        rules::NEVER => {
            tables_threads::call::put_call(calls, t, Call::closed());
            Err(Refusal::NoRoom)
        }
        rules::TIMED if c.deadline == d.clock as usize => {
            tables_threads::call::put_call(calls, t, Call::closed());
            Err(Refusal::TimedOut)
        }
        _ => {
            tables_threads::call::put_call(calls, t, c.moved(rules::WAITING, 0));
            tables_threads::queue::join(queue, t);
            d.running = 0;
            Ok(Answer::Waiting)
        }
    }
}

// Look: a timed call past its deadline ends; otherwise the deepest level with room is found.
#[tactic(auto, unfolding(rules::specs::Steps::look, rules::specs::Steps::look_at))]
pub fn look_step(
    d: &mut Device,
    s: Shape,
    lists: &[u16],
    calls: &mut [u64],
    queue: &mut [u8],
    t: usize,
    c: Call,
) -> Result<Answer, Refusal>
    requires { Looks s lists.now calls.old queue.old t }
    ensures { (states owners : List ℕ) → outcome result (state states owners lists.now calls.new queue.new d.new) ≡ look s (state states owners lists.now calls.old queue.old d.old) t c }
{
    if c.wait == rules::TIMED && c.deadline < d.clock as usize {
        tables_threads::call::put_call(calls, t, Call::closed());
        return Err(Refusal::TimedOut);
    }
    let Some(level) = tables_pool::deepest(lists, s.level_for(c.size)) else {
        return no_room(d, calls, queue, t, c);
    };
    tables_threads::call::put_call(calls, t, c.moved(rules::FOUND, level));
    Ok(Answer::Found(level))
}
