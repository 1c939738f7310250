// A block's id taken apart.
ghost use Rattle.std.specs.Prelude.{◌≡◌};
ghost use Rattle.shape.specs.Blocks.{id_pool, id_level, id_block};

// The pool number that an id names.
pub fn id_pool(id: usize) -> usize
    ensures { result ≡ id_pool id }
{
    id % 256
}

// The level that an id names.
pub fn id_level(id: usize) -> usize
    ensures { result ≡ id_level id }
{
    id / 256 % 16
}

// The block number that an id names.
pub fn id_block(id: usize) -> usize
    ensures { result ≡ id_block id }
{
    id / 4096
}
