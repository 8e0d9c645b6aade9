// How many blocks are compressed and how many nodes an open area has made, from the total and the height limit alone. No sum wraps,
// whatever the total is.
ghost use Rattle.std.specs.Prelude.{◌≡◌, ◌+◌, ◌-◌, ◌*◌, ◌<◌};
ghost use Rattle.calls.specs.Area.{done_blocks, held_bits, open_above, open_count};

use node::Block;

// The blocks of a size that are compressed when so many bits came to level 1.
pub fn done_blocks(size: u64, total: u64) -> u64
    requires { 0 < size }
    ensures { result ≡ done_blocks size total }
{
    total.saturating_sub(1) / size
}

// The bits that level 1 then holds. Of these two most callers take one, so no struct has both.
pub fn held_bits(size: u64, total: u64) -> u64
    requires { 0 < size }
    ensures { result ≡ held_bits size total }
{
    total - size * done_blocks(size, total)
}

// The compressions of an open area from a level up, when so many outputs came to it and so many levels from it up may be
// parallel.
fn open_above(levels: u64, outputs: u64) -> u64
    ensures { result ≡ open_above levels outputs }
{
    let mut i = outputs;
    let mut sum: u64 = 0;
    for _level in 0..levels {
        if i < 1 {
            return sum;
        }
        i /= 4;
        sum += i;
    }
    sum + i / 3
}

// The compressions of an open area.
pub fn open_count(limit: u64, total: u64) -> u64
    ensures { result ≡ open_count limit total }
{
    if limit < 1 {
        return done_blocks(Block::SEQUENTIAL_BITS, total);
    }
    let done = done_blocks(Block::BITS, total);
    done + open_above(limit - 1, done)
}
