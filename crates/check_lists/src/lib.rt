// Decides what validity says of the free lists, in time linear in the tables.
#![tactic(auto)]

mod marks;

ghost use Rattle.std.specs.Prelude.{◌≡◌, Bool, true, ◌&&◌, ℕ, ◌+◌, ◌≤◌, length, get_or};
ghost use Rattle.laws.specs.Tests.{every};
ghost use Rattle.shape.specs.Limits.{most_count, allowed};
ghost use Rattle.shape.specs.Blocks.{blocks};
ghost use Rattle.rules.specs.Valid.{list_ends, free_listed};
ghost use Rattle.check_lists.specs.Level.{Tells, zeros, below, level_valid};

use check_counts::count_of;
use rules;
use shape::Shape;

// Whether every cell passes a test, by a pass without branches. By `all`, which returns early, 5,456 cells took 2,657 ns, and not 257.
fn all_pass<F: Fn(u16) -> bool>(cells: &[u16], passes: F) -> bool
    requires { F.IsAlwaysCallable passes }
    ensures { (test : ℕ → Bool) → Tells (F.post passes) test → result ≡ every (length cells.now) (λ i. test (get_or cells.now i 0)) }
{
    let mut ok = true;
    for &cell in cells {
        ok &= passes(cell);
    }
    ok
}

// Whether every cell holds zero.
fn all_zero(cells: &[u16]) -> bool
    ensures { result ≡ zeros cells.now }
{
    all_pass(cells, |cell| cell == 0)
}

// Whether every member is below a bound.
fn all_below(members: &[u16], bound: u16) -> bool
    ensures { result ≡ below members.now bound }
{
    all_pass(members, |member| member < bound)
}

// What validity says of one level's list: its cells, and how many are used.
fn level_valid(states: &[u8], cells: &[u16], used: u16) -> bool
    requires { (length states.now ≤ most_count) × (length cells.now ≡ length states.now) }
    ensures { result ≡ level_valid states.now cells.now used }
{
    let end = used as usize;
    if cells.len() < end {
        return false;
    }
    if !all_zero(&cells[end..]) {
        return false;
    }
    let members = &cells[..end];
    if !all_below(members, states.len() as u16) {
        return false;
    }
    let mut marks = [0u8; marks::ROW];
    marks::mark(members, &mut marks);
    (count_of(states, rules::FREE, rules::FREE) == end) & marks::all_marked(states, &marks)
}

// Whether the free lists are as validity says: each names its level's FREE blocks once and nothing else, with zeros behind its end.
pub fn lists_valid(s: Shape, states: &[u8], lists: &[u16]) -> bool
    requires { (allowed s ≡ true) × (length states.now ≡ blocks s) × (length lists.now ≡ s.levels + blocks s) }
    ensures { result ≡ (list_ends s lists.now && free_listed s states.now lists.now) }
{
    let levels = s.levels;
    let mut from = 0;
    for level in 0..levels {
        let to = from + s.count(level);
        let start = levels + from;
        let end = levels + to;
        if !level_valid(&states[from..to], &lists[start..end], lists[level]) {
            return false;
        }
        from = to;
    }
    true
}
