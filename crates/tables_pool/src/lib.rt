// The free lists of the levels in a row of numbers, how many and then which, and the blocks' states in another, as C lends them.
#![tactic(auto)]

mod rows;
pub mod states;

ghost use Rattle.std.specs.Prelude.{◌≡◌, true, [], ◌∷◌, ◌++◌, ◌+◌, ◌-◌, ◌≤◌, ◌<◌, length, get_or, drop};
ghost use Rattle.laws.specs.Lists.{keep, up_from};
ghost use Rattle.shape.specs.Limits.{parts, most_levels, most_blocks, allowed};
ghost use Rattle.shape.specs.Blocks.{count};
ghost use Rattle.rules.specs.Tables.{section, free_list, put_list};
ghost use Rattle.rules.specs.Steps.{deepest};
ghost use Rattle.facts.specs.Lists.{ListReady};
ghost use Rattle.tables_pool.specs.Row.{elsewhere};

use shape::Shape;

// The deepest level from here upward with a FREE block.
pub fn deepest(lists: &[u16], level: usize) -> Option<usize>
    requires { level < length lists.now }
    ensures { result ≡ deepest lists.now level }
{
    for l in (0..=level).rev() {
        if 0 < lists[l] {
            return Some(l);
        }
    }
    None
}

// Where the members of a level's list begin.
fn section(s: Shape, l: usize) -> usize
    requires { (allowed s ≡ true) × (l < s.levels) }
    ensures { (result ≡ section s l) × (result ≤ most_levels + most_blocks) }
{
    s.levels + s.above(l)
}

// The first of a level's list.
pub fn first(s: Shape, lists: &[u16], l: usize) -> usize
    requires { ListReady s lists.now l × (0 < get_or lists.now l 0) }
    ensures { result ≡ get_or (free_list s lists.now l) 0 0 }
{
    let at = section(s, l);
    lists[at] as usize
}

// Takes the first of a level's list away.
pub fn drop_first(s: Shape, lists: &mut [u16], l: usize)
    requires { ListReady s lists.old l × (0 < get_or lists.old l 0) }
    ensures { lists.new
        ≡ put_list s lists.old l (drop 1 (free_list s lists.old l)) }
{
    let n = lists[l] as usize;
    let from = section(s, l);
    let to = from + s.count(l);
    rows::drop_first(&mut lists[from..to], n);
    lists[l] = (n - 1) as u16;
}

// Adds a block at the end of a level's list.
pub fn append(s: Shape, lists: &mut [u16], l: usize, b: usize)
    requires { ListReady s lists.old l × (get_or lists.old l 0 < count s l) × (b < 65536) }
    ensures { lists.new
        ≡ put_list s lists.old l (free_list s lists.old l ++ (b ∷ [])) }
{
    let n = lists[l] as usize;
    let at = section(s, l) + n;
    lists[at] = b as u16;
    lists[l] = (n + 1) as u16;
}

// Adds all parts of a block but one at the end of a level's list, in ascending order from b on.
pub fn append_parts(s: Shape, lists: &mut [u16], l: usize, b: usize)
    requires { ListReady s lists.old l × (get_or lists.old l 0 + (parts s - 1) ≤ count s l) × (b + parts s ≤ 65536) }
    ensures { lists.new
        ≡ put_list s lists.old l (free_list s lists.old l ++ up_from b (parts s - 1)) }
{
    for part in b..b + (Shape::PARTS - 1) {
        append(s, lists, l, part);
    }
}

// Takes the parts of a block out of a level's list, the rest keeping its order.
pub fn remove_parts(s: Shape, lists: &mut [u16], l: usize, parent: usize)
    requires { ListReady s lists.old l }
    ensures { lists.new
        ≡ put_list s lists.old l (keep (elsewhere (parts s) parent) (free_list s lists.old l)) }
{
    let n = lists[l] as usize;
    let from = section(s, l);
    let to = from + s.count(l);
    let kept = rows::remove_parts(&mut lists[from..to], n, Shape::PARTS, parent);
    lists[l] = kept as u16;
}
