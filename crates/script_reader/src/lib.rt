// The script reader: the script, and the reader's place in it.
#![tactic(auto)]

ghost use Rattle.std.specs.Prelude.{◌≡◌, true};
ghost use Rattle.rules.specs.Script.{uncut, value_at, read_at};

use rules::script::Record;
use script_read::fields;
use script_read::numbers::number_at;

// A script that is lent, and a place in it.
#[derive(Debug, Clone, Copy, PartialEq, Eq, Hash)]
pub struct Reader<'a> {
    pub script: &'a [u8],
    pub at: usize,
}

// A reader at the script's start.
pub fn new(script: &[u8]) -> Reader<'_>
    ensures { (result.script ≡ script.entry) × (result.at ≡ 0) }
{
    Reader { script, at: 0 }
}

// The same script, at another place.
pub fn moved(r: Reader<'_>, at: usize) -> Reader<'_>
    ensures { (result.script ≡ r.entry.script) × (result.at ≡ at) }
{
    Reader { at, ..r }
}

// What stands at the reader's place: the record, and where the next one starts.
pub fn next(r: Reader<'_>) -> Option<(Record, usize)>
    ensures { result ≡ read_at r.entry.script.now r.entry.at }
{
    script_read::read_at(r.script, r.at)
}

// The value of the field at an offset: the part of the script in which it stands.
#[tactic(auto, unfolding(rules::specs::Script::uncut))]
pub fn value_at(script: &[u8], at: usize) -> &[u8]
    requires { uncut script.now at ≡ true }
    ensures { result.now ≡ value_at script.now at }
{
    let start = at + 3;
    let end = start + number_at(script, at + 1, 2);
    fields::value(script, start, end)
}

// The value of the field at the reader's place.
pub fn value(r: Reader<'_>) -> &[u8]
    requires { uncut r.script.now r.at ≡ true }
    ensures { result.now ≡ value_at r.entry.script.now r.entry.at }
{
    value_at(r.script, r.at)
}

// What a reader finds at a place of a script. Its parameters are plain, so whoever calls it needs no reader.
pub fn read(script: &[u8], at: usize) -> Option<(Record, usize)>
    ensures { result ≡ read_at script.now at }
{
    next(moved(new(script), at))
}
