// A script that is lent: what stands at an offset of it.
#![tactic(auto)]

pub mod fields;
pub mod numbers;
pub mod records;

ghost use Rattle.std.specs.Prelude.{◌≡◌};
ghost use Rattle.rules.specs.Script.{read_at};

use rules::script::{Record, SHAPE_TAG};

// The record at an offset and where the next one starts; tag 1 stands first, and only there.
#[tactic(auto, using(crate::proofs::Reading::read_steps))]
pub fn read_at(script: &[u8], at: usize) -> Option<(Record, usize)>
    ensures { result ≡ read_at script.now at }
{
    let field = fields::field_at(script, at)?;
    if (at == 0) != (field.tag == SHAPE_TAG) {
        return None;
    }
    let record = records::decode(field.tag, fields::value(script, field.start, field.end))?;
    Some((record, field.end))
}
