// The words of document 01 as types: the record of clock and running thread, a thread's call, the answers.
#![tactic(auto)]

pub mod answers;
pub mod lengths;
pub mod script;

ghost use Rattle.std.specs.Prelude.{◌≡◌};
ghost use Rattle.rules.specs.Steps.{closed, holding, moved};

// The states of a block. Numbers and no enum: a byte of the table that C lends may hold any, and validity tells which are states.
pub const ALLOCATED: u8 = 0;

pub const FREE: u8 = 1;

pub const DIVIDED: u8 = 2;

pub const NOEXIST: u8 = 3;

pub const FREEING: u8 = 4;

pub const ALLOCATING: u8 = 5;

// The stages of a call. Numbers and no enum: a cell of the table that C lends may hold any, and validity tells which are stages.
pub const CLOSED: usize = 0;

pub const ASKED: usize = 1;

pub const FOUND: usize = 2;

pub const DIVIDING: usize = 3;

pub const RELEASING: usize = 4;

pub const WAITING: usize = 5;

// The kinds of wait. Numbers, as the stages are.
pub const NEVER: usize = 0;

pub const FOREVER: usize = 1;

pub const TIMED: usize = 2;

// How many cells a call takes in its table.
pub const CELLS: usize = 6;

// The clock runs from 0 to here.
pub const CLOCK_END: u32 = 4294967295;

// The clock, and who runs: 0 for nobody, t + 1 for thread t. A number and no Option: C lends the record.
#[repr(C)]
#[derive(Clone, Copy, Debug, PartialEq, Eq)]
pub struct Device {
    pub clock: u32,
    pub running: u32,
}

// A thread's call as its cells hold it, which C lends: so wait and deadline are numbers, which validity judges. The level is the found level, or the level of the block in hand.
#[derive(Clone, Copy, Debug, PartialEq, Eq)]
pub struct Call {
    pub stage: usize,
    pub size: usize,
    pub wait: usize,
    pub deadline: usize,
    pub level: usize,
    pub block: usize,
}

impl Call {
    // A call that is not open.
    pub fn closed() -> Call
        ensures { result ≡ closed }
    {
        Call {
            stage: CLOSED,
            size: 0,
            wait: 0,
            deadline: 0,
            level: 0,
            block: 0,
        }
    }

    // A call with a block in hand.
    pub fn holding(stage: usize, size: usize, level: usize, block: usize) -> Call
        ensures { result ≡ holding stage size level block }
    {
        Call {
            stage,
            size,
            level,
            block,
            ..Call::closed()
        }
    }

    // The same call at another stage, with another level found.
    pub fn moved(self, stage: usize, level: usize) -> Call
        ensures { result ≡ moved self stage level }
    {
        Call {
            stage,
            level,
            ..self
        }
    }
}

// Why a call is refused, in the order in which refusals are tried.
#[derive(Clone, Copy, Debug, PartialEq, Eq)]
pub enum Refusal {
    ShapeNotAllowed,
    WrongLength,
    NotValid,
    NoThread,
    NotRunning,
    IsBlocked,
    CallOpen,
    NoCall,
    SizeAboveTop,
    WaitOutside,
    IdOutside,
    NotAllocated,
    NotOwner,
    NoRoom,
    TimedOut,
    ClockAtEnd,
    BadRecord(usize),
    OffsetOutside,
    RowTooShort,
}

// What a call answers that is not refused.
#[derive(Clone, Copy, Debug, PartialEq, Eq)]
pub enum Answer {
    Opened,
    Found(usize),
    Again,
    Taken(usize),
    Split(usize),
    Granted(usize),
    Waiting,
    Merged(usize),
    Settled(usize),
    Switched,
    Ticked(usize),
    Whole,
    NotWhole,
    Built,
}

// What cover answers: the undivided existing block over an offset, with the number of its state as the table holds it.
#[derive(Clone, Copy, Debug, PartialEq, Eq)]
pub struct Covered {
    pub id: usize,
    pub state: u8,
}
