// Milliseconds and ticks, joined only by the conversion.
ghost use Rattle.std.specs.Prelude.{◌≡◌, ◌≤◌};
ghost use Rattle.shape.specs.Time.{longest, ticks, wait};

#[derive(Clone, Copy, Debug, PartialEq, Eq, Hash)]
pub struct Millis(pub i32);

#[derive(Clone, Copy, Debug, PartialEq, Eq, Hash)]
pub struct Ticks(pub u64);

// How long an ask may wait.
#[derive(Clone, Copy, Debug, PartialEq, Eq, Hash)]
pub enum Wait {
    Never,
    Forever,
    Timed(Ticks),
}

impl Millis {
    // The longest wait that is a time, and how long a tick is.
    pub const LONGEST: i32 = 600000;

    pub const TICK: u64 = 10;

    // A time in ticks.
    fn in_ticks(ms: u64) -> u64
        requires { ms ≤ longest }
        ensures { (result ≡ ticks ms) × (result ≤ longest) }
    {
        ms.div_ceil(Millis::TICK)
    }

    // The longest wait in ticks.
    pub fn longest_in_ticks() -> usize
        ensures { (result ≡ ticks longest) × (result ≤ longest) }
    {
        Millis::in_ticks(Millis::LONGEST as u64) as usize
    }

    // What a number of milliseconds allows: -1 is forever, 0 none, 1 to the longest a time; another is no wait.
    pub fn wait(self) -> Option<Wait>
        ensures { result ≡ wait self.0 }
    {
        match self.0 {
            -1 => Some(Wait::Forever),
            0 => Some(Wait::Never),
            ms @ 1..=Millis::LONGEST => {
                let ticks = Millis::in_ticks(u64::from(ms.unsigned_abs()));
                Some(Wait::Timed(Ticks(ticks)))
            }
            _ => None,
        }
    }
}
