// The lines of validity about blocks: their states, their owners and the tree that they form, decided by passes that become vector code.
#![tactic(auto)]

ghost use Rattle.std.specs.Prelude.{◌≡◌, true, ◌&&◌, ◌+◌, ◌-◌, ◌≤◌, length};
ghost use Rattle.shape.specs.Limits.{allowed};
ghost use Rattle.shape.specs.Blocks.{above, blocks};
ghost use Rattle.rules.specs.Valid.{states_known, owners_known, parts_exist, buddies_merged};
ghost use Rattle.check_tree.specs.Tree.{tree_valid};
ghost use Rattle.check_tree.specs.Words.{word_at};

use shape::Shape;

// A one in each of the four cells of a word.
const EACH: u32 = 0x01010101;

// Whether every state is known, and an ALLOCATED block, and no other, has a thread as owner. By index: zipped with the owners,
// the tree of one block took 14.1 ns, and not 12.4.
fn owners_known(s: Shape, states: &[u8], owners: &[u8]) -> bool
    requires { (allowed s ≡ true) × (length states.now ≡ blocks s) × (length owners.now ≡ blocks s) }
    ensures { result
        ≡ (states_known s states.now
        && owners_known s states.now owners.now) }
{
    let mut paired = true;
    let mut highest_state: u8 = 0;
    let mut highest_owner: u8 = 0;
    for (k, &state) in states.iter().enumerate() {
        let owner = owners[k];
        paired &= (state == rules::ALLOCATED) == (owner != 0);
        highest_state = highest_state.max(state);
        highest_owner = highest_owner.max(owner);
    }
    (highest_state <= rules::ALLOCATING) & (paired & (highest_owner <= s.threads as u8))
}

// Four cells from a place on as one number, the first lowest: a read of one word.
#[tactic(auto, unfolding(crate::specs::Words::word_at))]
fn word_at(cells: &[u8], at: usize) -> u32
    requires { at + 4 ≤ length cells.now }
    ensures { result ≡ word_at cells.now at }
{
    u32::from_le_bytes([cells[at], cells[at + 1], cells[at + 2], cells[at + 3]])
}

// Whether the parts of a DIVIDED block exist and are not all FREE, and those of any other block do not exist. Of the states
// NOEXIST alone has its two lowest bits set. By index: zipped with their parts (`as_chunks`), 5,456 blocks took 506 ns, and not 449.
fn parts_kept(s: Shape, states: &[u8], parents: usize) -> bool
    requires { (allowed s ≡ true)
        × (length states.now ≡ blocks s)
        × (states_known s states.now ≡ true)
        × (parents ≡ above s (s.levels - 1)) }
    ensures { result ≡ (parts_exist s states.now && buddies_merged s states.now) }
{
    let tops = s.tops;
    let mut ok = true;
    for i in 0..parents {
        let word = word_at(states, tops + Shape::PARTS * i);
        let missing = word & (word >> 1) & EACH;
        let expected = ((states[i] != rules::DIVIDED) as u32) * EACH;
        let all_free = (rules::FREE as u32) * EACH;
        ok &= (missing == expected) & (word != all_free);
    }
    ok
}

// Whether states and owners are those of a valid state.
pub fn tree_valid(s: Shape, states: &[u8], owners: &[u8]) -> bool
    requires { (allowed s ≡ true) × (length states.now ≡ blocks s) × (length owners.now ≡ blocks s) }
    ensures { result ≡ tree_valid s states.now owners.now }
{
    if !owners_known(s, states, owners) {
        return false;
    }
    if states[..s.tops].contains(&rules::NOEXIST) {
        return false;
    }
    let deepest = s.above(s.levels - 1);
    if states[deepest..].contains(&rules::DIVIDED) {
        return false;
    }
    parts_kept(s, states, deepest)
}
