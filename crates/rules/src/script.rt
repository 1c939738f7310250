// The records of a script, and what reading finds.
use shape::Shape;
use shape::time::Millis;

// A record in the form in which it stood: an ask with its wait, or without one.
#[derive(Clone, Copy, Debug, PartialEq, Eq)]
pub enum Record {
    Pool(Shape),
    Ask {
        thread: usize,
        size: usize,
        wait: Millis,
    },
    ShortAsk {
        thread: usize,
        size: usize,
    },
    GoOn(usize),
    Give {
        thread: usize,
        id: usize,
    },
    Switch(usize),
    Tick,
    Whole,
}

// The tags of records. Numbers and no enum: a script's byte may be any, and the papers name the `match` on it.
pub const SHAPE_TAG: u8 = 1;

pub const ASK_TAG: u8 = 2;

pub const GO_ON_TAG: u8 = 3;

pub const GIVE_TAG: u8 = 4;

pub const SWITCH_TAG: u8 = 5;

pub const TICK_TAG: u8 = 6;

pub const WHOLE_TAG: u8 = 7;

// The longest script that is run.
pub const MOST_BYTES: usize = 65536;

// The wait of an ask that stands without one, in milliseconds: forever.
pub const SHORT_WAIT: i32 = -1;
