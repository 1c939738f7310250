// A call that releases: merge while the buddies are FREE, then settle.
ghost use Rattle.std.specs.Prelude.{◌≡◌, List, ℕ};
ghost use Rattle.rules.specs.declared.Device.{Device};
ghost use Rattle.rules.specs.Tables.{state};
ghost use Rattle.rules.specs.Steps.{outcome, merge_step, settle_step, release_step};
ghost use Rattle.step_release.specs.ReleaseNeeds.{Merges, Settles};

use rules::{Answer, Call};
use shape::Shape;

// Merge: the buddies leave the list, all parts become NOEXIST, the parent FREEING and in hand.
#[tactic(auto, unfolding(rules::specs::Steps::merge_step, shape::specs::Limits::parts))]
pub fn merge_step(
    s: Shape,
    states: &mut [u8],
    lists: &mut [u16],
    calls: &mut [u64],
    t: usize,
    c: Call,
) -> Answer
    requires { Merges s states.old lists.old calls.old t c }
    ensures { (owners queue : List ℕ) (d : Device) → outcome (Ok result) (state states.new owners lists.new calls.new queue d) ≡ merge_step s (state states.old owners lists.old calls.old queue d) t c }
{
    let l = c.level;
    let b = c.block;
    let parent = b / Shape::PARTS;
    tables_pool::states::merge_states(s, states, l, b);
    tables_pool::remove_parts(s, lists, l, parent);
    tables_threads::call::put_call(calls, t, Call::holding(rules::RELEASING, 0, l - 1, parent));
    Answer::Merged(s.id(l - 1, parent))
}

// Settle: the block becomes FREE and is listed, the call closes, and every waiting thread is ready and asked.
#[tactic(auto, unfolding(rules::specs::Steps::settle_step))]
pub fn settle_step(
    s: Shape,
    states: &mut [u8],
    lists: &mut [u16],
    calls: &mut [u64],
    queue: &mut [u8],
    t: usize,
    c: Call,
) -> Answer
    requires { Settles s states.old lists.old calls.old queue.old t c }
    ensures { (owners : List ℕ) (d : Device) → outcome (Ok result) (state states.new owners lists.new calls.new queue.new d) ≡ settle_step s (state states.old owners lists.old calls.old queue.old d) t c }
{
    let l = c.level;
    let b = c.block;
    tables_pool::states::put_state(s, states, l, b, rules::FREE);
    tables_pool::append(s, lists, l, b);
    tables_threads::call::put_call(calls, t, Call::closed());
    let woken = tables_threads::wake::wake_all(calls, queue);
    Answer::Settled(woken)
}

// A releasing call goes on: merge below level 0 with its buddies FREE, settle otherwise.
#[tactic(auto, unfolding(rules::specs::Steps::release_step))]
pub fn release_step(
    s: Shape,
    states: &mut [u8],
    lists: &mut [u16],
    calls: &mut [u64],
    queue: &mut [u8],
    t: usize,
    c: Call,
) -> Answer
    requires { Settles s states.old lists.old calls.old queue.old t c }
    ensures { (owners : List ℕ) (d : Device) → outcome (Ok result) (state states.new owners lists.new calls.new queue.new d) ≡ release_step s (state states.old owners lists.old calls.old queue.old d) t c }
{
    if tables_pool::states::merges(s, states, c.level, c.block) {
        return merge_step(s, states, lists, calls, t, c);
    }
    settle_step(s, states, lists, calls, queue, t, c)
}
