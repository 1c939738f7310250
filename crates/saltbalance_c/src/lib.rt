// The pool for C: the calls of crate `pool`, each with its answer in numbers. One export beside each call and none generic, since C calls
// each by its name and passes each table by itself. The header is include/saltbalance.h.
#![tactic(auto)]

pub mod said;

ghost use Rattle.std.specs.Prelude.{◌≡◌};
ghost use Rattle.rules.specs.Tables.{state, table_lengths};
ghost use Rattle.rules.specs.Calls.{build, ask, go_on, give, switch, tick};
ghost use Rattle.rules.specs.Questions.{whole, cover, map_pool};
ghost use Rattle.saltbalance_c.specs.Said.{millis, said, block, told, tell, row_told, tell_row};

use rules::lengths::Lengths;
use rules::{Device, lengths};
use said::{CoveredBlock, MappedBlocks, Said};
use shape::Shape;
use shape::time::Millis;

// The lengths of the tables to lend for a shape. All are 0 where the shape is not allowed.
#[unsafe(no_mangle)]
pub extern "C" fn saltbalance_lengths_of(s: Shape) -> Lengths
    ensures { result ≡ table_lengths s }
{
    lengths::lengths_of(s)
}

// Build: the lent tables become those of a fresh pool, and the record's clock and runner with them.
#[unsafe(no_mangle)]
pub extern "C" fn saltbalance_build(
    d: &mut Device,
    s: Shape,
    states: &mut [u8],
    owners: &mut [u8],
    lists: &mut [u16],
    calls: &mut [u64],
    queue: &mut [u8],
) -> Said
    ensures { told result (state states.new owners.new lists.new calls.new queue.new d.new) ≡ tell (build s (state states.old owners.old lists.old calls.old queue.old d.old)) }
{
    pool::build(d, s, states, owners, lists, calls, queue).into()
}

// Ask: thread t asks for a block of at least this size, and says how long it would wait.
#[unsafe(no_mangle)]
pub extern "C" fn saltbalance_ask(
    d: Device,
    s: Shape,
    states: &[u8],
    owners: &[u8],
    lists: &[u16],
    calls: &mut [u64],
    queue: &[u8],
    t: usize,
    size: usize,
    wait: i32,
) -> Said
    ensures { told result (state states.now owners.now lists.now calls.new queue.now d) ≡ tell (ask s (state states.now owners.now lists.now calls.old queue.now d) t size (millis wait)) }
{
    pool::ask(
        d,
        s,
        states,
        owners,
        lists,
        calls,
        queue,
        t,
        size,
        Millis(wait),
    )
    .into()
}

// Go on: thread t's call makes its next step.
#[unsafe(no_mangle)]
pub extern "C" fn saltbalance_go_on(
    d: &mut Device,
    s: Shape,
    states: &mut [u8],
    owners: &mut [u8],
    lists: &mut [u16],
    calls: &mut [u64],
    queue: &mut [u8],
    t: usize,
) -> Said
    ensures { told result (state states.new owners.new lists.new calls.new queue.new d.new) ≡ tell (go_on s (state states.old owners.old lists.old calls.old queue.old d.old) t) }
{
    pool::go_on(d, s, states, owners, lists, calls, queue, t).into()
}

// Give back: thread t gives back the block with this id.
#[unsafe(no_mangle)]
pub extern "C" fn saltbalance_give_back(
    d: Device,
    s: Shape,
    states: &mut [u8],
    owners: &mut [u8],
    lists: &[u16],
    calls: &mut [u64],
    queue: &[u8],
    t: usize,
    id: usize,
) -> Said
    ensures { told result (state states.new owners.new lists.now calls.new queue.now d) ≡ tell (give s (state states.old owners.old lists.now calls.old queue.now d) t id) }
{
    pool::give_back(d, s, states, owners, lists, calls, queue, t, id).into()
}

// Switch: thread t runs.
#[unsafe(no_mangle)]
pub extern "C" fn saltbalance_switch(
    d: &mut Device,
    s: Shape,
    states: &[u8],
    owners: &[u8],
    lists: &[u16],
    calls: &[u64],
    queue: &[u8],
    t: usize,
) -> Said
    ensures { told result (state states.now owners.now lists.now calls.now queue.now d.new) ≡ tell (switch s (state states.now owners.now lists.now calls.now queue.now d.old) t) }
{
    pool::switch(d, s, states, owners, lists, calls, queue, t).into()
}

// Tick: the clock rises, and who waited until now is ready.
#[unsafe(no_mangle)]
pub extern "C" fn saltbalance_tick(
    d: &mut Device,
    s: Shape,
    states: &[u8],
    owners: &[u8],
    lists: &[u16],
    calls: &mut [u64],
    queue: &mut [u8],
) -> Said
    ensures { told result (state states.now owners.now lists.now calls.new queue.new d.new) ≡ tell (tick s (state states.now owners.now lists.now calls.old queue.old d.old)) }
{
    pool::tick(d, s, states, owners, lists, calls, queue).into()
}

// Whole: whether every byte has come home and no call is open.
#[unsafe(no_mangle)]
pub extern "C" fn saltbalance_whole(
    d: Device,
    s: Shape,
    states: &[u8],
    owners: &[u8],
    lists: &[u16],
    calls: &[u64],
    queue: &[u8],
) -> Said
    ensures { result ≡ said (whole s (state states.now owners.now lists.now calls.now queue.now d)) }
{
    pool::whole(d, s, states, owners, lists, calls, queue).into()
}

// Cover: the undivided block over a byte offset, with its state.
#[unsafe(no_mangle)]
pub extern "C" fn saltbalance_cover(
    d: Device,
    s: Shape,
    states: &[u8],
    owners: &[u8],
    lists: &[u16],
    calls: &[u64],
    queue: &[u8],
    offset: usize,
) -> CoveredBlock
    ensures { result ≡ block (cover s (state states.now owners.now lists.now calls.now queue.now d) offset) }
{
    pool::cover(d, s, states, owners, lists, calls, queue, offset).into()
}

// Map: the ids of all undivided blocks by address into the row.
#[unsafe(no_mangle)]
pub extern "C" fn saltbalance_map(
    d: Device,
    s: Shape,
    states: &[u8],
    owners: &[u8],
    lists: &[u16],
    calls: &[u64],
    queue: &[u8],
    row: &mut [u32],
) -> MappedBlocks
    ensures { row_told result row.new ≡ tell_row (map_pool s (state states.now owners.now lists.now calls.now queue.now d) row.old) }
{
    pool::map(d, s, states, owners, lists, calls, queue, row).into()
}
