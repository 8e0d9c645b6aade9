// The bits of a piece, as many at a time as level 1 takes.
ghost use Rattle.std.specs.Prelude.{◌≡◌, ◌+◌, ◌≤◌};
ghost use Rattle.bits.specs.Bits.{filled};
ghost use Rattle.bits.specs.PieceLaws.{spanned};
ghost use Rattle.tree.specs.Tree.{block_bits};
ghost use Rattle.calls.specs.Area.{level_words};
ghost use Rattle.climb.specs.Levels.{with_level};
ghost use Rattle.climb.specs.Left.{Left};
ghost use Rattle.piece.specs.FeedSteps.{size_of, free_of, next_of, room_of};
ghost use Rattle.piece.specs.ChunkLaws.{Part, Chunk, fed_whole, Whole};

use area::{Area, count};
use bits::Span;
use node::{Block, Compressor};

// The bits of a block of level 1 that are not chained.
fn size_of(limit: u64) -> u64
    ensures { result ≡ size_of limit }
{
    if limit < 1 {
        Block::SEQUENTIAL_BITS
    } else {
        Block::BITS
    }
}

// The bits that level 1 takes before a node is made; they go to the end of its words.
pub fn free_of(limit: u64, total: u64) -> u64
    ensures { result ≡ free_of limit total }
{
    let size = size_of(limit);
    size - count::held_bits(size, total)
}

// The bits that a full level 1 takes next: those of two blocks, since two nodes are made at once, and of one at a sequential level,
// whose next node takes the output of the one before it.
fn next_of(limit: u64) -> u64
    ensures { result ≡ next_of limit }
{
    if limit < 1 {
        Block::SEQUENTIAL_BITS
    } else {
        2 * Block::BITS
    }
}

// The bits that level 1 takes next. A full one takes some, too, since it is compressed when the next bit comes.
fn room_of(limit: u64, total: u64) -> u64
    ensures { result ≡ room_of limit total }
{
    let free = free_of(limit, total);
    if 0 < free { free } else { next_of(limit) }
}

// Copies the bits of a piece into level 1, through its own part of the area.
pub fn fill_level(area: &mut [u64], place: u64, piece: &[u8], span: Span)
    requires { Part area.old (spanned piece.now span) × (place + span.bits ≤ block_bits) }
    ensures { area.new
        ≡ with_level area.old 1
        (filled (level_words area.old 1) place piece.now span.start span.bits) }
{
    let level = &mut area[Area::HEAD..Area::FIRST_END];
    let count = span.bits as usize;
    bits::fill(level, place as usize, piece, 0, span.start as usize, count);
}

// Feeds the bits of a piece, which level 1 takes at once, and answers how many words of the log were written. If it is full and they are more than a
// block has, two nodes are made at once: of the block that level 1 holds, and of the next, which stands whole in the piece and fills
// level 1 as any other. So that both are there when the nodes are made, the first is copied before.
fn feed_chunk(
    area: &mut [u64],
    with: &Compressor,
    total: u64,
    piece: &[u8],
    span: Span,
    log: &mut [u64],
) -> usize
    requires { Chunk with.now.keyed total area.old (spanned piece.now span) log.old 0 }
    ensures { Left (fed_whole with.now.keyed total (spanned piece.now span) area.old)
        area.old log.old 0 area.new log.new result }
{
    let limit = with.keyed.params.limit;
    let free = free_of(limit, total);
    if 0 < free {
        fill_level(&mut *area, Block::BITS - free, piece, span);
        return 0;
    }
    if Block::BITS < span.bits {
        let mut held = [0u64; Area::LEVEL];
        held.copy_from_slice(Area::level(area, 1));
        let start = span.start;
        let bits = Block::BITS;
        fill_level(&mut *area, 0, piece, Span { start, bits });
        let next = climb::flush_two(&mut *area, with, total, &held, log);
        let rest = &piece[Block::BYTES as usize..];
        let bits = span.bits - Block::BITS;
        fill_level(&mut *area, 0, rest, Span { start, bits });
        return next;
    }
    let next = climb::flush(&mut *area, with, total, log);
    let size = size_of(limit);
    fill_level(&mut *area, Block::BITS - size, piece, span);
    next
}

// Feeds all bits of a piece, and answers how many words of the log were written.
pub fn feed_bits(
    area: &mut [u64],
    with: &Compressor,
    total: u64,
    piece: &[u8],
    span: Span,
    log: &mut [u64],
) -> usize
    requires { Whole with.now.keyed total area.old (spanned piece.now span) log.old }
    ensures { Left (fed_whole with.now.keyed total (spanned piece.now span) area.old)
        area.old log.old 0 area.new log.new result }
{
    let mut done: u64 = 0;
    let mut at: usize = 0;
    // a step goes by what level 1 takes then, so no iterator gives the places
    while done < span.bits {
        let before = total + done;
        let room = room_of(with.keyed.params.limit, before);
        let bits = room.min(span.bits - done);
        // from byte done / 8 on; start and done are not added, as their sum may pass 2^64
        let past = span.start + done % 8;
        let byte = (done / 8 + past / 8) as usize;
        let start = past % 8;
        at += feed_chunk(
            area,
            with,
            before,
            &piece[byte..],
            Span { start, bits },
            &mut log[at..],
        );
        done += bits;
    }
    at
}
