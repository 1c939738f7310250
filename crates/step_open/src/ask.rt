// Ask: the call becomes asked.
ghost use Rattle.std.specs.Prelude.{◌≡◌, List, ℕ, ◌+◌, ◌*◌, ◌≤◌, length};
ghost use Rattle.shape.specs.Time.{wait};
ghost use Rattle.rules.specs.Numbers.{CELLS};
ghost use Rattle.rules.specs.Tables.{state, put_call};
ghost use Rattle.rules.specs.Steps.{outcome};
ghost use Rattle.rules.specs.Calls.{ask_step};
ghost use Rattle.step_open.specs.OpenNeeds.{asking};

use rules::{Answer, Call, Device, Refusal};
use shape::Shape;
use shape::time::{Millis, Wait};

// A call that is asked is put in thread t's cells.
fn open(calls: &mut [u64], t: usize, size: usize, wait: usize, deadline: usize)
    requires { CELLS * t + CELLS ≤ length calls.old }
    ensures { calls.new ≡ put_call calls.old t (asking size wait deadline) }
{
    tables_threads::call::put_call(
        calls,
        t,
        Call {
            stage: rules::ASKED,
            size,
            wait,
            deadline,
            level: 0,
            block: 0,
        },
    );
}

// Ask by a thread that runs: refused where a call is open, the size is above the top size or the wait is outside its limits.
#[tactic(auto, unfolding(rules::specs::Calls::ask_step, rules::specs::Calls::asked_call))]
pub fn ask_step(
    d: Device,
    s: Shape,
    calls: &mut [u64],
    t: usize,
    size: usize,
    m: Millis,
) -> Result<Answer, Refusal>
    requires { CELLS * t + CELLS ≤ length calls.old }
    ensures { (states owners lists queue : List ℕ) → outcome result (state states owners lists calls.new queue d) ≡ ask_step s (state states owners lists calls.old queue d) t size (wait m.0) }
{
    let c = tables_threads::call::call_of(calls, t);
    if c.stage != rules::CLOSED {
        return Err(Refusal::CallOpen);
    }
    if s.top_size < size {
        return Err(Refusal::SizeAboveTop);
    }
    let clock = d.clock as usize;
    match m.wait().ok_or(Refusal::WaitOutside)? {
        Wait::Never => open(calls, t, size, rules::NEVER, 0),
        Wait::Forever => open(calls, t, size, rules::FOREVER, 0),
        Wait::Timed(ticks) => open(calls, t, size, rules::TIMED, clock + ticks.0 as usize),
    }
    Ok(Answer::Opened)
}
