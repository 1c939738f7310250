// The calls on tables that are known to be sound: the refusals from the fourth on, and then the step.
#![tactic(auto)]

ghost use Rattle.std.specs.Prelude.{◌≡◌, List, ℕ};
ghost use Rattle.rules.specs.Tables.{state};
ghost use Rattle.facts.specs.Lines.{Sound};
ghost use Rattle.rules.specs.Steps.{outcome};
ghost use Rattle.rules.specs.Calls.{ask, go_on, give, switch, tick};
ghost use Rattle.rules.specs.Questions.{whole};
ghost use Rattle.rules.specs.Refusals.{running};
ghost use Rattle.pool_sound.specs.Sound.{CallsSound, OwnedSound, ThreadsSound, StatesSound};

use rules::{Answer, Device, Refusal};
use shape::Shape;
use shape::time::Millis;

// The first of the refusals 4 and 5 that applies to a thread's call, if one does.
#[tactic(auto, unfolding(rules::specs::Refusals::running))]
fn may_step(d: Device, s: Shape, t: usize) -> Result<(), Refusal>
    ensures { result ≡ running s d t }
{
    let running = d.running as usize;
    if s.threads <= t {
        return Err(Refusal::NoThread);
    }
    if running != t + 1 {
        return Err(Refusal::NotRunning);
    }
    Ok(())
}

// Ask: thread t asks for a block of at least this size, and says how long it would wait.
#[tactic(auto, using(crate::proofs::Needs::needs), unfolding(rules::specs::Calls::ask))]
pub fn ask(
    d: Device,
    s: Shape,
    calls: &mut [u64],
    t: usize,
    size: usize,
    wait: Millis,
) -> Result<Answer, Refusal>
    requires { CallsSound s calls.old d }
    ensures { (states owners lists queue : List ℕ) → Sound s (state states owners lists calls.old queue d) → outcome result (state states owners lists calls.new queue d) ≡ ask s (state states owners lists calls.old queue d) t size wait }
{
    may_step(d, s, t)?;
    step_open::ask::ask_step(d, s, calls, t, size, wait)
}

// Go on: thread t's call makes its next step.
#[tactic(auto, using(crate::proofs::Needs::needs), unfolding(rules::specs::Calls::go_on))]
pub fn go_on(
    d: &mut Device,
    s: Shape,
    states: &mut [u8],
    owners: &mut [u8],
    lists: &mut [u16],
    calls: &mut [u64],
    queue: &mut [u8],
    t: usize,
) -> Result<Answer, Refusal>
    requires { Sound s (state states.old owners.old lists.old calls.old queue.old d.old) }
    ensures { outcome result (state states.new owners.new lists.new calls.new queue.new d.new) ≡ go_on s (state states.old owners.old lists.old calls.old queue.old d.old) t }
{
    may_step(*d, s, t)?;
    let c = tables_threads::call::call_of(calls, t);
    if c.stage == rules::CLOSED {
        return Err(Refusal::NoCall);
    }
    step_go_on::go_on::go_on_step(d, s, states, owners, lists, calls, queue, t)
}

// Give back: thread t gives back the block with this id.
#[tactic(auto, using(crate::proofs::Needs::needs), unfolding(rules::specs::Calls::give))]
pub fn give_back(
    d: Device,
    s: Shape,
    states: &mut [u8],
    owners: &mut [u8],
    calls: &mut [u64],
    t: usize,
    id: usize,
) -> Result<Answer, Refusal>
    requires { OwnedSound s states.old owners.old calls.old d }
    ensures { (lists queue : List ℕ) → Sound s (state states.old owners.old lists calls.old queue d) → outcome result (state states.new owners.new lists calls.new queue d) ≡ give s (state states.old owners.old lists calls.old queue d) t id }
{
    may_step(d, s, t)?;
    step_open::give::give_step(s, states, owners, calls, t, id)
}

// Switch: thread t runs.
#[tactic(auto, using(crate::proofs::Needs::needs), unfolding(rules::specs::Calls::switch))]
pub fn switch(d: &mut Device, s: Shape, calls: &[u64], t: usize) -> Result<Answer, Refusal>
    requires { CallsSound s calls.now d.old }
    ensures { (states owners lists queue : List ℕ) → Sound s (state states owners lists calls.now queue d.old) → outcome result (state states owners lists calls.now queue d.new) ≡ switch s (state states owners lists calls.now queue d.old) t }
{
    step_device::switch::switch_step(d, s, calls, t)
}

// Tick: the clock rises, and who waited until now is ready.
#[tactic(auto, using(crate::proofs::Needs::needs), unfolding(rules::specs::Calls::tick))]
pub fn tick(
    d: &mut Device,
    s: Shape,
    calls: &mut [u64],
    queue: &mut [u8],
) -> Result<Answer, Refusal>
    requires { ThreadsSound s calls.old queue.old d.old }
    ensures { (states owners lists : List ℕ) → Sound s (state states owners lists calls.old queue.old d.old) → outcome result (state states owners lists calls.new queue.new d.new) ≡ tick s (state states owners lists calls.old queue.old d.old) }
{
    step_device::tick::tick_step(d, calls, queue)
}

// Whole: whether every byte has come home and no call is open.
#[tactic(auto, using(crate::proofs::Needs::needs), unfolding(rules::specs::Questions::whole))]
pub fn whole(s: Shape, states: &[u8], calls: &[u64]) -> Answer
    requires { StatesSound s states.now calls.now }
    ensures { (owners lists queue : List ℕ) (device : Device) → Sound s (state states.now owners lists calls.now queue device) → Ok result ≡ whole s (state states.now owners lists calls.now queue device) }
{
    if questions::whole::is_whole(s, states, calls) {
        Answer::Whole
    } else {
        Answer::NotWhole
    }
}
