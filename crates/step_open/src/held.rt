// A block that a thread holds, by its id.
ghost use Rattle.std.specs.Prelude.{◌≡◌};
ghost use Rattle.rules.specs.Refusals.{held_by};
ghost use Rattle.step_open.specs.OpenNeeds.{Owned};

use rules::Refusal;
use shape::Shape;

// The first of the refusals 11, 12 and 13 that applies to a block's id, if one does.
#[tactic(auto, unfolding(rules::specs::Refusals::held_by, rules::specs::Refusals::id_outside))]
pub fn held_by(s: Shape, states: &[u8], owners: &[u8], t: usize, id: usize) -> Result<(), Refusal>
    requires { Owned s states.now owners.now t }
    ensures { result ≡ held_by s states.now owners.now t id }
{
    if shape::ids::id_pool(id) != s.pool {
        return Err(Refusal::IdOutside);
    }
    let l = shape::ids::id_level(id);
    if s.levels <= l {
        return Err(Refusal::IdOutside);
    }
    let b = shape::ids::id_block(id);
    if s.count(l) <= b {
        return Err(Refusal::IdOutside);
    }
    if tables_pool::states::state_at(s, states, l, b) != rules::ALLOCATED {
        return Err(Refusal::NotAllocated);
    }
    if tables_pool::states::state_at(s, owners, l, b) as usize != t + 1 {
        return Err(Refusal::NotOwner);
    }
    Ok(())
}
