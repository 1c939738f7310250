// One record of a script, on tables that are known to be sound.
#![tactic(auto)]

ghost use Rattle.std.specs.Prelude.{◌≡◌, false};
ghost use Rattle.rules.specs.Tables.{state};
ghost use Rattle.facts.specs.Lines.{Sound};
ghost use Rattle.rules.specs.Steps.{outcome};
ghost use Rattle.rules.specs.Listing.{record_step};
ghost use Rattle.script_read.specs.Forms.{is_pool};

use rules::script::{Record, SHORT_WAIT};
use rules::{Answer, Device, Refusal};
use shape::Shape;
use shape::time::Millis;

// The step that a record names, by a `match`, since each takes other tables; a shape's record makes none here, since it stands first and only there.
#[tactic(auto, unfolding(rules::specs::Listing::record_step))]
pub fn turn(
    step: Record,
    d: &mut Device,
    s: Shape,
    states: &mut [u8],
    owners: &mut [u8],
    lists: &mut [u16],
    calls: &mut [u64],
    queue: &mut [u8],
) -> Result<Answer, Refusal>
    requires { (is_pool step ≡ false) × Sound s (state states.old owners.old lists.old calls.old queue.old d.old) }
    ensures { outcome result (state states.new owners.new lists.new calls.new queue.new d.new) ≡ record_step s (state states.old owners.old lists.old calls.old queue.old d.old) step }
{
    match step {
        Record::Pool(_) => Ok(Answer::Built),
        Record::Ask { thread, size, wait } => pool_sound::ask(*d, s, calls, thread, size, wait),
        Record::ShortAsk { thread, size } => {
            pool_sound::ask(*d, s, calls, thread, size, Millis(SHORT_WAIT))
        }
        Record::GoOn(thread) => {
            pool_sound::go_on(d, s, states, owners, lists, calls, queue, thread)
        }
        Record::Give { thread, id } => {
            pool_sound::give_back(*d, s, states, owners, calls, thread, id)
        }
        Record::Switch(thread) => pool_sound::switch(d, s, calls, thread),
        Record::Tick => pool_sound::tick(d, s, calls, queue),
        Record::Whole => Ok(pool_sound::whole(s, states, calls)),
    }
}
