// What a tag and a value say.
#![tactic(auto, unfolding(rules::specs::Script::decode))]

ghost use Rattle.std.specs.Prelude.{Some, ◌≡◌, length};
ghost use Rattle.rules.specs.Numbers.{SHAPE-TAG, ASK-TAG, GIVE-TAG};
ghost use Rattle.rules.specs.Script.{decode};

use crate::numbers::{number_at, signed};
use rules::script::{
    ASK_TAG, GIVE_TAG, GO_ON_TAG, Record, SHAPE_TAG, SWITCH_TAG, TICK_TAG, WHOLE_TAG,
};
use shape::Shape;
use shape::time::Millis;

// A shape: pool, threads, levels, top blocks, top size in four bytes.
fn pool_record(value: &[u8]) -> Record
    requires { length value.now ≡ 8 }
    ensures { Some result ≡ decode SHAPE-TAG value.now }
{
    Record::Pool(Shape {
        pool: number_at(value, 0, 1),
        threads: number_at(value, 1, 1),
        levels: number_at(value, 2, 1),
        tops: number_at(value, 3, 1),
        top_size: number_at(value, 4, 4),
    })
}

// An ask with its wait: thread, size in four bytes, signed wait in four.
fn ask_record(value: &[u8]) -> Record
    requires { length value.now ≡ 9 }
    ensures { Some result ≡ decode ASK-TAG value.now }
{
    Record::Ask {
        thread: number_at(value, 0, 1),
        size: number_at(value, 1, 4),
        wait: Millis(signed(number_at(value, 5, 4))),
    }
}

// An ask without a wait: thread, size in four bytes.
fn short_ask_record(value: &[u8]) -> Record
    requires { length value.now ≡ 5 }
    ensures { Some result ≡ decode ASK-TAG value.now }
{
    Record::ShortAsk {
        thread: number_at(value, 0, 1),
        size: number_at(value, 1, 4),
    }
}

// A give: thread, id in four bytes.
fn give_record(value: &[u8]) -> Record
    requires { length value.now ≡ 5 }
    ensures { Some result ≡ decode GIVE-TAG value.now }
{
    Record::Give {
        thread: number_at(value, 0, 1),
        id: number_at(value, 1, 4),
    }
}

// The tag tells the record, and the length whether its value is all of it. A `match` on both, as document 01 names it.
pub fn decode(tag: u8, value: &[u8]) -> Option<Record>
    ensures { result ≡ decode tag value.now }
{
    let length = value.len();
    match tag {
        SHAPE_TAG => match length {
            8 => Some(pool_record(value)),
            _ => None,
        },
        ASK_TAG => match length {
            9 => Some(ask_record(value)),
            5 => Some(short_ask_record(value)),
            _ => None,
        },
        GO_ON_TAG => match length {
            1 => Some(Record::GoOn(number_at(value, 0, 1))),
            _ => None,
        },
        GIVE_TAG => match length {
            5 => Some(give_record(value)),
            _ => None,
        },
        SWITCH_TAG => match length {
            1 => Some(Record::Switch(number_at(value, 0, 1))),
            _ => None,
        },
        TICK_TAG => match length {
            0 => Some(Record::Tick),
            _ => None,
        },
        WHOLE_TAG => match length {
            0 => Some(Record::Whole),
            _ => None,
        },
        0 | 8..=255 => None,
    }
}
