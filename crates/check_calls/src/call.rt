// What is said of one call by itself. Its tests are joined by `&` and `|`: by `&&`, with early returns here, in check_hands and in
// check_queue, an ask on four blocks among open calls took 286 ns, and not 222.
#![tactic(auto, unfolding(crate::proofs::Lines::every_line))]

ghost use Rattle.std.specs.Prelude.{◌≡◌, true, not, ◌||◌, ◌<◌, ◌^◌, leb, eqb};
ghost use Rattle.shape.specs.Limits.{allowed};
ghost use Rattle.shape.specs.Blocks.{level_for};
ghost use Rattle.rules.specs.Valid.{uses_wait, uses_block, fields_used, hand_inside, deadline_kept, may_wait, call_kept};

use rules::Call;
use shape::Shape;
use shape::time::Millis;

// Whether a call's stage uses the kind of wait.
fn uses_wait(c: Call) -> bool
    ensures { result ≡ uses_wait c }
{
    matches!(c.stage, rules::ASKED | rules::WAITING | rules::FOUND)
}

// Whether a call has a block in hand.
pub fn uses_block(c: Call) -> bool
    ensures { result ≡ uses_block c }
{
    matches!(c.stage, rules::DIVIDING | rules::RELEASING)
}

// Whether the stage and the kind of wait are known, and the fields that the stage doesn't use hold zero.
fn fields_used(c: Call) -> bool
    ensures { result ≡ fields_used c }
{
    let wait = uses_wait(c);
    let block = uses_block(c);
    (c.stage <= rules::WAITING)
        & (c.wait <= rules::TIMED)
        & (wait | (c.stage == rules::DIVIDING) | (c.size == 0))
        & (wait | (c.wait == 0))
        & ((wait & (c.wait == rules::TIMED)) | (c.deadline == 0))
        & ((c.stage == rules::FOUND) | block | (c.level == 0))
        & (block | (c.block == 0))
}

// Whether a block in hand is a block of the shape.
fn hand_inside(s: Shape, c: Call) -> bool
    requires { allowed s ≡ true }
    ensures { result ≡ hand_inside s c }
{
    !uses_block(c) || (c.level < s.levels && c.block < s.count(c.level))
}

// Whether the level of a call at this stage is not deeper than its target.
fn not_deeper(s: Shape, stage: usize, c: Call) -> bool
    requires { allowed s ≡ true }
    ensures { result ≡ (not (eqb c.stage stage) || leb c.level (level_for s c.size)) }
{
    c.stage != stage || c.level <= s.level_for(c.size)
}

// Whether a timed deadline is not too far, and above the clock while waiting.
fn deadline_kept(clock: usize, c: Call) -> bool
    requires { clock < 2 ^ 32 }
    ensures { result ≡ deadline_kept clock c }
{
    !(uses_wait(c) & (c.wait == rules::TIMED))
        | ((c.deadline <= clock + Millis::longest_in_ticks())
            & ((c.stage != rules::WAITING) | (clock < c.deadline)))
}

// Whether a call that waits may wait.
fn may_wait(c: Call) -> bool
    ensures { result ≡ may_wait c }
{
    (c.stage != rules::WAITING) | (c.wait != rules::NEVER)
}

// Whether all that is said of one call holds: of a closed one, that it holds zeros.
pub fn call_kept(s: Shape, clock: usize, c: Call) -> bool
    requires { (allowed s ≡ true) × (clock < 2 ^ 32) }
    ensures { result ≡ call_kept s clock c }
{
    if c.stage == rules::CLOSED {
        return c == Call::closed();
    }
    fields_used(c)
        & hand_inside(s, c)
        & not_deeper(s, rules::DIVIDING, c)
        & (c.size <= s.top_size)
        & not_deeper(s, rules::FOUND, c)
        & deadline_kept(clock, c)
        & may_wait(c)
}
