// The blocks' states, a number for each block at its place; owners stand in a row of the same form. C lends both so.
ghost use Rattle.std.specs.Prelude.{◌≡◌, ◌∷◌, ◌+◌, ◌*◌, ◌-◌, ◌/◌, ◌≤◌, ◌<◌, length, set, replicate};
ghost use Rattle.std.proofs.lemmas.List.Edits.{sets};
ghost use Rattle.shape.specs.Limits.{parts};
ghost use Rattle.shape.specs.Blocks.{place};
ghost use Rattle.rules.specs.Numbers.{FREE, DIVIDED, NOEXIST, FREEING, ALLOCATING};
ghost use Rattle.rules.specs.Tables.{state_at};
ghost use Rattle.rules.specs.Steps.{first_buddy, merges};
ghost use Rattle.tables_pool.specs.Cells.{HasBlock};

use rules::{ALLOCATING, DIVIDED, FREE, FREEING, NOEXIST};
use shape::Shape;

// What stands at a block's place.
pub fn state_at(s: Shape, states: &[u8], l: usize, b: usize) -> u8
    requires { HasBlock s states.now l b }
    ensures { result ≡ state_at s states.now l b }
{
    let at = s.place(l, b);
    states[at]
}

// Stores a number at a block's place.
pub fn put_state(s: Shape, cells: &mut [u8], l: usize, b: usize, v: u8)
    requires { HasBlock s cells.old l b }
    ensures { cells.new ≡ set cells.old (place s l b) v }
{
    let at = s.place(l, b);
    cells[at] = v;
}

// A block is split: it becomes DIVIDED, its first part ALLOCATING and the others FREE.
pub fn split_states(s: Shape, states: &mut [u8], l: usize, b: usize)
    requires { HasBlock s states.old l b × (l + 1 < s.levels) }
    ensures { states.new
        ≡ sets (set states.old (place s l b) DIVIDED) (place s (l + 1) (parts s * b))
        (ALLOCATING ∷ replicate (parts s - 1) FREE) }
{
    let at = s.place(l, b);
    states[at] = DIVIDED;
    let from = s.place(l + 1, Shape::PARTS * b);
    states[from] = ALLOCATING;
    states[from + 1..from + Shape::PARTS].fill(FREE);
}

// A block merges with its buddies: all become NOEXIST and their parent FREEING.
pub fn merge_states(s: Shape, states: &mut [u8], l: usize, b: usize)
    requires { HasBlock s states.old l b × (0 < l) }
    ensures { states.new
        ≡ set (sets states.old (place s l (first_buddy s b)) (replicate (parts s) NOEXIST))
        (place s (l - 1) (b / parts s)) FREEING }
{
    let parent = b / Shape::PARTS;
    let from = s.place(l, Shape::PARTS * parent);
    states[from..from + Shape::PARTS].fill(NOEXIST);
    let at = s.place(l - 1, parent);
    states[at] = FREEING;
}

// Whether a block lies below level 0 and its buddies are FREE.
pub fn merges(s: Shape, states: &[u8], l: usize, b: usize) -> bool
    requires { HasBlock s states.now l b }
    ensures { result ≡ merges s states.now l b }
{
    if l == 0 {
        return false;
    }
    let buddy = Shape::PARTS * (b / Shape::PARTS);
    let from = s.place(l, buddy);
    let buddies = &states[from..from + Shape::PARTS];
    buddies
        .iter()
        .enumerate()
        .all(|(j, state)| buddy + j == b || *state == FREE)
}
