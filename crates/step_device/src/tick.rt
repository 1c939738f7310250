// Tick: the clock rises, and who waited until now is ready.
ghost use Rattle.std.specs.Prelude.{◌≡◌, List, ℕ, ◌+◌, length};
ghost use Rattle.shape.specs.declared.Shape.{Shape};
ghost use Rattle.rules.specs.Tables.{state};
ghost use Rattle.rules.specs.Steps.{outcome};
ghost use Rattle.rules.specs.Calls.{tick_step};
ghost use Rattle.facts.specs.Queue.{QueueReady};
ghost use Rattle.facts.specs.Wake.{MembersInside};

use rules::{Answer, Device, Refusal};

// Tick: refused where the clock is at its end; waiting threads whose deadline is the new clock become ready and asked.
#[tactic(auto, unfolding(rules::specs::Calls::tick_step))]
pub fn tick_step(d: &mut Device, calls: &mut [u64], queue: &mut [u8]) -> Result<Answer, Refusal>
    requires queue_ready { QueueReady queue.old }
    requires members_inside { MembersInside calls.old queue.old }
    ensures { (s : Shape) (states owners lists : List ℕ) → length queue.old ≡ s.threads + 1 → outcome result (state states owners lists calls.new queue.new d.new) ≡ tick_step s (state states owners lists calls.old queue.old d.old) }
{
    if d.clock == rules::CLOCK_END {
        return Err(Refusal::ClockAtEnd);
    }
    d.clock += 1;
    let woken = tables_threads::wake::wake_due(calls, queue, d.clock as usize);
    Ok(Answer::Ticked(woken))
}
