// The check that every public call but build begins with: the shape, the lengths of the tables, and whether they are a valid state.
// The tables stand one by one: handed on as one struct, with what is known of them, map took 1,272 bytes of stack, and not 888; the
// header promises 1,200 at most.
#![tactic(auto)]

ghost use Rattle.std.specs.Prelude.{◌≡◌, true};
ghost use Rattle.shape.specs.Limits.{allowed};
ghost use Rattle.rules.specs.Tables.{state, lengths};
ghost use Rattle.rules.specs.Valid.{valid};
ghost use Rattle.facts.specs.Given.{LengthFacts};
ghost use Rattle.rules.specs.Refusals.{fitting, verdict};

use rules::lengths::{Lengths, lengths_of};
use rules::{Device, Refusal};
use shape::Shape;

// Whether each table has the length that the shape asks for.
#[tactic(auto, unfolding(rules::specs::Tables::lengths, rules::specs::Tables::table_lengths))]
fn lengths(
    s: Shape,
    states: &[u8],
    owners: &[u8],
    lists: &[u16],
    calls: &[u64],
    queue: &[u8],
) -> bool
    requires { allowed s ≡ true }
    ensures { (d : Device) → result ≡ lengths s (state states.now owners.now lists.now calls.now queue.now d) }
{
    let given = Lengths {
        states: states.len(),
        owners: owners.len(),
        lists: lists.len(),
        calls: calls.len(),
        queue: queue.len(),
    };
    given == lengths_of(s)
}

// Whether tables of the right lengths are a valid state.
fn tables_valid(
    s: Shape,
    states: &[u8],
    owners: &[u8],
    lists: &[u16],
    calls: &[u64],
    queue: &[u8],
    d: Device,
) -> bool
    requires { (allowed s ≡ true) × LengthFacts s (state states.now owners.now lists.now calls.now queue.now d) }
    ensures { result ≡ valid s (state states.now owners.now lists.now calls.now queue.now d) }
{
    check_tree::tree_valid(s, states, owners)
        && check_lists::lists_valid(s, states, lists)
        && check_calls::calls_valid(s, d.clock as usize, calls)
        && check_hands::hands_valid(s, states, calls)
        && check_queue::queue_valid(s, calls, queue, d)
}

// The first of the refusals 1 and 2 that applies, if one does.
#[tactic(auto, unfolding(rules::specs::Refusals::fitting))]
pub fn fitting(
    s: Shape,
    states: &[u8],
    owners: &[u8],
    lists: &[u16],
    calls: &[u64],
    queue: &[u8],
) -> Result<(), Refusal>
    ensures { (d : Device) → result ≡ fitting s (state states.now owners.now lists.now calls.now queue.now d) }
{
    if !s.allowed() {
        return Err(Refusal::ShapeNotAllowed);
    }
    if !lengths(s, states, owners, lists, calls, queue) {
        return Err(Refusal::WrongLength);
    }
    Ok(())
}

// The first of the refusals 1 to 3 that applies, if one does.
pub fn checked(
    s: Shape,
    states: &[u8],
    owners: &[u8],
    lists: &[u16],
    calls: &[u64],
    queue: &[u8],
    d: Device,
) -> Result<(), Refusal>
    ensures { result ≡ verdict s (state states.now owners.now lists.now calls.now queue.now d) }
{
    fitting(s, states, owners, lists, calls, queue)?;
    if !tables_valid(s, states, owners, lists, calls, queue, d) {
        return Err(Refusal::NotValid);
    }
    Ok(())
}
