// Cover: the one undivided existing block over a byte offset, with its state.
ghost use Rattle.std.specs.Prelude.{◌≡◌, true, ◌-◌, ◌/◌, ◌<◌, length};
ghost use Rattle.shape.specs.Limits.{allowed};
ghost use Rattle.shape.specs.Blocks.{size, count, blocks, bytes};
ghost use Rattle.rules.specs.Questions.{cover_level};
ghost use Rattle.questions.specs.Cover.{cover_at};

use rules::{Covered, Refusal};
use shape::Shape;

// The block of a level over a byte of the pool.
fn block_over(s: Shape, x: usize, level: usize) -> usize
    requires { (allowed s ≡ true) × (x < bytes s) × (level < s.levels) }
    ensures { (result ≡ x / size s level) × (result < count s level) }
{
    x / s.size(level)
}

// The deepest level whose block over a byte of the pool is undivided.
fn cover_level(s: Shape, states: &[u8], x: usize) -> usize
    requires { (allowed s ≡ true) × (length states.now ≡ blocks s) × (x < bytes s) }
    ensures { (result ≡ cover_level s states.now x (s.levels - 1)) × (result < s.levels) }
{
    for level in (1..s.levels).rev() {
        let state = states[s.place(level, block_over(s, x, level))];
        if (state != rules::DIVIDED) & (state != rules::NOEXIST) {
            return level;
        }
    }
    0
}

// The undivided existing block over an offset; refused where the offset is outside the pool.
#[tactic(auto, unfolding(crate::specs::Cover::cover_at))]
pub fn cover_at(s: Shape, states: &[u8], x: usize) -> Result<Covered, Refusal>
    requires { (allowed s ≡ true) × (length states.now ≡ blocks s) }
    ensures { result ≡ cover_at s states.now x }
{
    if s.bytes() <= x {
        return Err(Refusal::OffsetOutside);
    }
    let level = cover_level(s, states, x);
    let block = block_over(s, x, level);
    Ok(Covered {
        id: s.id(level, block),
        state: states[s.place(level, block)],
    })
}
