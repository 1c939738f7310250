// The lengths of the tables of a shape.
ghost use Rattle.std.specs.Prelude.{◌≡◌};
ghost use Rattle.rules.specs.Tables.{table_lengths};

use crate::CELLS;
use shape::Shape;

#[repr(C)]
#[derive(Clone, Copy, Debug, PartialEq, Eq)]
pub struct Lengths {
    pub states: usize,
    pub owners: usize,
    pub lists: usize,
    pub calls: usize,
    pub queue: usize,
}

// How long each table of this shape is: what to lend. All are 0 where the shape is not allowed, since C knows no Option.
pub fn lengths_of(s: Shape) -> Lengths
    ensures { result ≡ table_lengths s }
{
    if !s.allowed() {
        return Lengths {
            states: 0,
            owners: 0,
            lists: 0,
            calls: 0,
            queue: 0,
        };
    }
    let blocks = s.blocks();
    Lengths {
        states: blocks,
        owners: blocks,
        lists: s.levels + blocks,
        calls: CELLS * s.threads,
        queue: s.threads + 1,
    }
}
