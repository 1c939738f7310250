// The pool's public calls: each takes any numbers and any tables, and makes its step or gives the listed refusal. The tables stand one by
// one: one struct for all calls would lend each of them by `&mut`, and which a call can alter would no longer stand in its signature.
#![tactic(auto)]

ghost use Rattle.std.specs.Prelude.{◌≡◌};
ghost use Rattle.rules.specs.Tables.{state};
ghost use Rattle.rules.specs.Steps.{outcome};
ghost use Rattle.rules.specs.Calls.{build, ask, go_on, give, switch, tick};
ghost use Rattle.rules.specs.Questions.{whole, cover, map_outcome, map_pool};

use rules::{Answer, Covered, Device, Refusal};
use shape::Shape;
use shape::time::Millis;

// Build: the lent tables become those of a fresh pool, and the record's clock and runner with them.
#[tactic(auto, unfolding(rules::specs::Calls::build, rules::specs::Tables::fresh))]
pub fn build(
    d: &mut Device,
    s: Shape,
    states: &mut [u8],
    owners: &mut [u8],
    lists: &mut [u16],
    calls: &mut [u64],
    queue: &mut [u8],
) -> Result<Answer, Refusal>
    ensures { outcome result (state states.new owners.new lists.new calls.new queue.new d.new) ≡ build s (state states.old owners.old lists.old calls.old queue.old d.old) }
{
    check_tables::fitting(s, states, owners, lists, calls, queue)?;
    tables_fresh::make_fresh(s, states, owners, lists, calls, queue);
    *d = Device {
        clock: 0,
        running: 0,
    };
    Ok(Answer::Built)
}

// Ask: thread t asks for a block of at least this size, and says how long it would wait.
#[tactic(auto, using(crate::proofs::Checked::checks), unfolding(rules::specs::Calls::ask))]
pub fn ask(
    d: Device,
    s: Shape,
    states: &[u8],
    owners: &[u8],
    lists: &[u16],
    calls: &mut [u64],
    queue: &[u8],
    t: usize,
    size: usize,
    wait: Millis,
) -> Result<Answer, Refusal>
    ensures { outcome result (state states.now owners.now lists.now calls.new queue.now d) ≡ ask s (state states.now owners.now lists.now calls.old queue.now d) t size wait }
{
    check_tables::checked(s, states, owners, lists, calls, queue, d)?;
    pool_sound::ask(d, s, calls, t, size, wait)
}

// Go on: thread t's call makes its next step.
#[tactic(auto, using(crate::proofs::Checked::checks), unfolding(rules::specs::Calls::go_on))]
pub fn go_on(
    d: &mut Device,
    s: Shape,
    states: &mut [u8],
    owners: &mut [u8],
    lists: &mut [u16],
    calls: &mut [u64],
    queue: &mut [u8],
    t: usize,
) -> Result<Answer, Refusal>
    ensures { outcome result (state states.new owners.new lists.new calls.new queue.new d.new) ≡ go_on s (state states.old owners.old lists.old calls.old queue.old d.old) t }
{
    check_tables::checked(s, states, owners, lists, calls, queue, *d)?;
    pool_sound::go_on(d, s, states, owners, lists, calls, queue, t)
}

// Give back: thread t gives back the block with this id.
#[tactic(auto, using(crate::proofs::Checked::checks), unfolding(rules::specs::Calls::give))]
pub fn give_back(
    d: Device,
    s: Shape,
    states: &mut [u8],
    owners: &mut [u8],
    lists: &[u16],
    calls: &mut [u64],
    queue: &[u8],
    t: usize,
    id: usize,
) -> Result<Answer, Refusal>
    ensures { outcome result (state states.new owners.new lists.now calls.new queue.now d) ≡ give s (state states.old owners.old lists.now calls.old queue.now d) t id }
{
    check_tables::checked(s, states, owners, lists, calls, queue, d)?;
    pool_sound::give_back(d, s, states, owners, calls, t, id)
}

// Switch: thread t runs.
#[tactic(auto, using(crate::proofs::Checked::checks), unfolding(rules::specs::Calls::switch))]
pub fn switch(
    d: &mut Device,
    s: Shape,
    states: &[u8],
    owners: &[u8],
    lists: &[u16],
    calls: &[u64],
    queue: &[u8],
    t: usize,
) -> Result<Answer, Refusal>
    ensures { outcome result (state states.now owners.now lists.now calls.now queue.now d.new) ≡ switch s (state states.now owners.now lists.now calls.now queue.now d.old) t }
{
    check_tables::checked(s, states, owners, lists, calls, queue, *d)?;
    pool_sound::switch(d, s, calls, t)
}

// Tick: the clock rises, and who waited until now is ready.
#[tactic(auto, using(crate::proofs::Checked::checks), unfolding(rules::specs::Calls::tick))]
pub fn tick(
    d: &mut Device,
    s: Shape,
    states: &[u8],
    owners: &[u8],
    lists: &[u16],
    calls: &mut [u64],
    queue: &mut [u8],
) -> Result<Answer, Refusal>
    ensures { outcome result (state states.now owners.now lists.now calls.new queue.new d.new) ≡ tick s (state states.now owners.now lists.now calls.old queue.old d.old) }
{
    check_tables::checked(s, states, owners, lists, calls, queue, *d)?;
    pool_sound::tick(d, s, calls, queue)
}

// Whole: whether every byte has come home and no call is open.
#[tactic(auto, using(crate::proofs::Checked::checks), unfolding(rules::specs::Questions::whole))]
pub fn whole(
    d: Device,
    s: Shape,
    states: &[u8],
    owners: &[u8],
    lists: &[u16],
    calls: &[u64],
    queue: &[u8],
) -> Result<Answer, Refusal>
    ensures { result ≡ whole s (state states.now owners.now lists.now calls.now queue.now d) }
{
    check_tables::checked(s, states, owners, lists, calls, queue, d)?;
    Ok(pool_sound::whole(s, states, calls))
}

// Cover: the undivided block over a byte offset, with its state.
#[tactic(auto, using(crate::proofs::Checked::checks), unfolding(rules::specs::Questions::cover, questions::specs::Cover::cover_at))]
pub fn cover(
    d: Device,
    s: Shape,
    states: &[u8],
    owners: &[u8],
    lists: &[u16],
    calls: &[u64],
    queue: &[u8],
    offset: usize,
) -> Result<Covered, Refusal>
    ensures { result ≡ cover s (state states.now owners.now lists.now calls.now queue.now d) offset }
{
    check_tables::checked(s, states, owners, lists, calls, queue, d)?;
    questions::cover::cover_at(s, states, offset)
}

// Map: the ids of all undivided blocks by address into the row; answers how many they are.
#[tactic(auto, using(crate::proofs::Checked::checks), unfolding(rules::specs::Questions::map_pool))]
pub fn map(
    d: Device,
    s: Shape,
    states: &[u8],
    owners: &[u8],
    lists: &[u16],
    calls: &[u64],
    queue: &[u8],
    row: &mut [u32],
) -> Result<usize, Refusal>
    ensures { map_outcome result row.new ≡ map_pool s (state states.now owners.now lists.now calls.now queue.now d) row.old }
{
    check_tables::checked(s, states, owners, lists, calls, queue, d)?;
    questions::map::map_row(s, states, row)
}
