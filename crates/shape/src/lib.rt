// The shape of a pool and what follows from it; the two units of time.
#![tactic(auto)]

pub mod ids;
pub mod time;

ghost use Rattle.std.specs.Prelude.{◌≡◌, true, ◌^◌, ◌<◌, ◌≤◌};
ghost use Rattle.shape.specs.Limits.{parts, most_levels, most_count, most_blocks, allowed};
ghost use Rattle.shape.specs.Blocks.{size, count, offset, level_for, id, above, place, blocks, bytes};

#[repr(C)]
#[derive(Clone, Copy, Debug, PartialEq, Eq, Hash)]
pub struct Shape {
    pub pool: usize,
    pub threads: usize,
    pub levels: usize,
    pub tops: usize,
    pub top_size: usize,
}

impl Shape {
    pub const PARTS: usize = 4;

    // The number of parts is this power of two.
    const PARTS_LOG: usize = 2;

    pub const LEAST_MULTIPLE: usize = 4;

    pub const MOST_POOL: usize = 255;

    pub const MOST_THREADS: usize = 8;

    pub const MOST_LEVELS: usize = 5;

    pub const MOST_TOPS: usize = 16;

    pub const MOST_TOP_SIZE: usize = 65536;

    // The most blocks of a level.
    pub const MOST_COUNT: usize = 4096;

    pub const MOST_BLOCKS: usize = 5456;

    // A power of the number of parts.
    fn power(self, exponent: usize) -> usize
        requires { exponent ≤ most_levels }
        ensures { (result ≡ parts self ^ exponent) × ((1 ≤ result) × (result ≤ 1024)) }
    {
        1 << (Shape::PARTS_LOG * exponent)
    }

    // Whether the numbers lie within the limits.
    pub fn allowed(self) -> bool
        ensures { result ≡ allowed self }
    {
        if !(1..=Shape::MOST_LEVELS).contains(&self.levels) {
            return false;
        }
        let unit = Shape::LEAST_MULTIPLE * self.power(self.levels - 1);
        (self.pool <= Shape::MOST_POOL)
            & (1..=Shape::MOST_THREADS).contains(&self.threads)
            & (1..=Shape::MOST_TOPS).contains(&self.tops)
            & (1..=Shape::MOST_TOP_SIZE).contains(&self.top_size)
            & self.top_size.is_multiple_of(unit)
    }

    // The block size at a level.
    pub fn size(self, level: usize) -> usize
        requires { level ≤ most_levels }
        ensures { result ≡ size self level }
    {
        self.top_size / self.power(level)
    }

    // How many blocks a level has.
    pub fn count(self, level: usize) -> usize
        requires { (allowed self ≡ true) × (level < self.levels) }
        ensures { (result ≡ count self level) × ((1 ≤ result) × (result ≤ most_count)) }
    {
        self.tops * self.power(level)
    }

    // Where a block starts in the pool.
    pub fn offset(self, level: usize, block: usize) -> usize
        requires { (allowed self ≡ true) × (level < self.levels) × (block < count self level) }
        ensures { result ≡ offset self level block }
    {
        block * self.size(level)
    }

    // The deepest level whose size is at least the request.
    pub fn level_for(self, request: usize) -> usize
        requires { allowed self ≡ true }
        ensures { result ≡ level_for self request }
    {
        for level in (1..self.levels).rev() {
            if request <= self.size(level) {
                return level;
            }
        }
        0
    }

    // A block's id.
    pub fn id(self, level: usize, block: usize) -> usize
        requires { (allowed self ≡ true) × (level < self.levels) × (block < count self level) }
        ensures { result ≡ id self level block }
    {
        self.pool + 256 * level + 4096 * block
    }

    // How many blocks lie above a level.
    pub fn above(self, level: usize) -> usize
        requires { (allowed self ≡ true) × (level ≤ self.levels) }
        ensures { (result ≡ above self level) × (result ≤ most_blocks) }
    {
        self.tops * ((self.power(level) - 1) / (Shape::PARTS - 1))
    }

    // The place of a block in the tables.
    pub fn place(self, level: usize, block: usize) -> usize
        requires { (allowed self ≡ true) × (level < self.levels) × (block < count self level) }
        ensures { (result ≡ place self level block) × (result < blocks self) }
    {
        self.above(level) + block
    }

    // How many blocks all levels have together.
    pub fn blocks(self) -> usize
        requires { allowed self ≡ true }
        ensures { (result ≡ blocks self) × ((1 ≤ result) × (result ≤ most_blocks)) }
    {
        self.above(self.levels)
    }

    // How many bytes the pool has.
    pub fn bytes(self) -> usize
        requires { allowed self ≡ true }
        ensures { result ≡ bytes self }
    {
        self.tops * self.top_size
    }
}
