// The field at an offset of a script: a tag of one byte, a length of two, the value.
ghost use Rattle.std.specs.Prelude.{◌≡◌, ◌-◌, ◌≤◌, length, take, drop};
ghost use Rattle.script_read.specs.Framing.{framed};

use crate::numbers::number_at;

// The tag of a field, and from where to where its value stands.
#[derive(Debug, Clone, Copy, PartialEq, Eq, Hash)]
pub struct Field {
    pub tag: u8,
    pub start: usize,
    pub end: usize,
}

// The field at an offset, unless the script ends before it does.
#[tactic(auto, using(crate::proofs::Reading::field_steps), unfolding(crate::specs::Framing::framed))]
pub fn field_at(script: &[u8], at: usize) -> Option<Field>
    ensures { result ≡ framed script.now at }
{
    let left = script.len().checked_sub(3)?.checked_sub(at)?;
    let count = number_at(script, at + 1, 2);
    if left < count {
        return None;
    }
    let start = at + 3;
    Some(Field {
        tag: script[at],
        start,
        end: start + count,
    })
}

// The value of a field: the part of the script in which it stands.
pub fn value(script: &[u8], start: usize, end: usize) -> &[u8]
    requires { (start ≤ end) × (end ≤ length script.now) }
    ensures { result.now ≡ take (end - start) (drop start script.now) }
{
    &script[start..end]
}
