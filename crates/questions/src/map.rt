// Map: the ids of all undivided existing blocks by address, in a lent row.
ghost use Rattle.std.specs.Prelude.{◌≡◌, true, length};
ghost use Rattle.shape.specs.Limits.{allowed};
ghost use Rattle.shape.specs.Blocks.{blocks};
ghost use Rattle.rules.specs.Questions.{listed, map_block, map_ids, map_outcome, map_row};
ghost use Rattle.questions.specs.Listing.{level_above, Listable, Listed};

use rules::Refusal;
use shape::Shape;

// Lists a block from a place of the row on, a DIVIDED one as its parts and any other by its id, and answers the next place;
// behind the row's end it only counts.
#[cycle(list_block_list_parts)]
fn list_block(
    s: Shape,
    states: &[u8],
    row: &mut [u32],
    at: usize,
    depth: usize,
    block: usize,
) -> usize
    requires { Listable s states.now at depth block 1 }
    ensures { Listed row.old at (map_block s states.now depth (level_above s depth) block) result row.new }
{
    let level = s.levels - 1 - depth;
    let state = states[s.place(level, block)];
    if (0 < depth) & (state == rules::DIVIDED) {
        return list_parts(
            s,
            states,
            row,
            at,
            depth - 1,
            Shape::PARTS * block,
            Shape::PARTS,
        );
    }
    let next = at + 1;
    if at < row.len() {
        row[at] = s.id(level, block) as u32;
    }
    next
}

// Lists parts from a place of the row on, each as a block, and answers the next place.
#[cycle(list_block_list_parts)]
fn list_parts(
    s: Shape,
    states: &[u8],
    row: &mut [u32],
    at: usize,
    depth: usize,
    block: usize,
    count: usize,
) -> usize
    requires { Listable s states.now at depth block count }
    ensures { Listed row.old at (listed (map_block s states.now depth (level_above s depth)) block count) result
        row.new }
{
    let mut next = at;
    for i in 0..count {
        next = list_block(s, states, row, next, depth, block + i);
    }
    next
}

// Lists the top blocks as the parts of the pool; answers how many blocks the map has.
fn list_pool(s: Shape, states: &[u8], row: &mut [u32]) -> usize
    requires { (allowed s ≡ true) × (length states.now ≡ blocks s) }
    ensures { Listed row.old 0 (map_ids s states.now) result row.new }
{
    list_parts(s, states, row, 0, s.levels - 1, 0, s.tops)
}

// The map in a lent row. A row with a place for each block of the deepest level is long enough; for another the map is counted first, so that
// a row that is too short is refused untouched.
pub fn map_row(s: Shape, states: &[u8], row: &mut [u32]) -> Result<usize, Refusal>
    requires { (allowed s ≡ true) × (length states.now ≡ blocks s) }
    ensures { map_outcome result row.new ≡ map_row s states.now row.old }
{
    if s.count(s.levels - 1) <= row.len() {
        return Ok(list_pool(s, states, row));
    }
    let count = list_pool(s, states, &mut row[..0]);
    if row.len() < count {
        return Err(Refusal::RowTooShort);
    }
    Ok(list_pool(s, states, row))
}
