// Lent tables made fresh: the top blocks FREE and listed 0 upward, no calls, nobody in the queue.
#![tactic(auto)]

ghost use Rattle.std.specs.Prelude.{◌≡◌, true, ◌+◌, length};
ghost use Rattle.shape.specs.Limits.{allowed};
ghost use Rattle.shape.specs.Blocks.{blocks};
ghost use Rattle.rules.specs.Tables.{state, fresh};
ghost use Rattle.facts.specs.Given.{LengthFacts};

use rules::{FREE, NOEXIST};
use shape::Shape;

// The top blocks are FREE, and no others exist.
fn free_tops(s: Shape, states: &mut [u8])
    requires { (allowed s ≡ true) × (length states.old ≡ blocks s) }
    ensures { states.new ≡ (fresh s).pool.states }
{
    states.fill(NOEXIST);
    states[..s.tops].fill(FREE);
}

// Lists the top blocks, 0 upward, and no others.
fn list_tops(s: Shape, lists: &mut [u16])
    requires { (allowed s ≡ true) × (length lists.old ≡ s.levels + blocks s) }
    ensures { lists.new ≡ (fresh s).pool.lists }
{
    lists.fill(0);
    for b in 0..s.tops {
        tables_pool::append(s, lists, 0, b);
    }
}

// Makes tables of the right lengths fresh; clock 0 and nobody running go with them.
pub fn make_fresh(
    s: Shape,
    states: &mut [u8],
    owners: &mut [u8],
    lists: &mut [u16],
    calls: &mut [u64],
    queue: &mut [u8],
)
    requires { (allowed s ≡ true) × LengthFacts s (state states.old owners.old lists.old calls.old queue.old (fresh s).threads.device) }
    ensures { state states.new owners.new lists.new calls.new queue.new (fresh s).threads.device ≡ fresh s }
{
    free_tops(s, states);
    owners.fill(0);
    list_tops(s, lists);
    calls.fill(0);
    queue.fill(0);
}
