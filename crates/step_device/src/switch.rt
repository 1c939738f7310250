// Switch: another thread runs.
ghost use Rattle.std.specs.Prelude.{◌≡◌, true, List, ℕ, ◌*◌, length};
ghost use Rattle.shape.specs.Limits.{allowed};
ghost use Rattle.rules.specs.Numbers.{CELLS};
ghost use Rattle.rules.specs.Tables.{state};
ghost use Rattle.rules.specs.Steps.{outcome};
ghost use Rattle.rules.specs.Calls.{switch_step};

use rules::{Answer, Device, Refusal};
use shape::Shape;

// Switch to a thread: refused where there is no such thread, or where it is blocked.
#[tactic(auto, unfolding(rules::specs::Calls::switch_step))]
pub fn switch_step(d: &mut Device, s: Shape, calls: &[u64], t: usize) -> Result<Answer, Refusal>
    requires { (allowed s ≡ true) × (length calls.now ≡ CELLS * s.threads) }
    ensures { (states owners lists queue : List ℕ) → outcome result (state states owners lists calls.now queue d.new) ≡ switch_step s (state states owners lists calls.now queue d.old) t }
{
    if s.threads <= t {
        return Err(Refusal::NoThread);
    }
    let c = tables_threads::call::call_of(calls, t);
    if c.stage == rules::WAITING {
        return Err(Refusal::IsBlocked);
    }
    d.running = t as u32 + 1;
    Ok(Answer::Switched)
}
