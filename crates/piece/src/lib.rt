// A piece fed to an area that takes it.
#![tactic(auto)]

ghost use Rattle.bits.specs.Piece.{piece_bits};
ghost use Rattle.bits.specs.PieceLaws.{spanned};
ghost use Rattle.calls.specs.Calls.{fed_bits};
ghost use Rattle.calls.proofs.CallLaws.{FeedPassed};
ghost use Rattle.climb.specs.Left.{Left};
ghost use Rattle.piece.specs.PieceLaws.{FedPiece};

use area::Area;
use bits::Span;
use node::{Block, Compressor};

mod chunk; // chunk.rt: the bits of a piece, as many at a time as level 1 takes

// Feeds a piece that nodes are made of, and answers how many words of the log were written. K and the round constants are
// copied once.
fn feed_nodes(area: &mut [u64], piece: &[u8], span: Span, log: &mut [u64]) -> usize
    requires { FeedPassed area.old (spanned piece.now span) log.old }
    ensures { Left (fed_bits area.old (piece_bits (spanned piece.now span)))
        area.old log.old 0 area.new log.new result }
{
    let total = area[Area::TOTAL];
    let first = constants::first_part();
    let with = Compressor::new(climb::keyed_of(area), &first);
    chunk::feed_bits(area, &with, total, piece, span, log)
}

// Feeds a piece to the levels, and answers how many words of the log were written. Bits that level 1 takes before a node is made
// are only copied into it.
fn feed_levels(area: &mut [u64], piece: &[u8], span: Span, log: &mut [u64]) -> usize
    requires { FeedPassed area.old (spanned piece.now span) log.old }
    ensures { Left (fed_bits area.old (piece_bits (spanned piece.now span)))
        area.old log.old 0 area.new log.new result }
{
    let free = chunk::free_of(area[Area::LIMIT], area[Area::TOTAL]);
    if free < span.bits {
        return feed_nodes(area, piece, span, log);
    }
    chunk::fill_level(area, Block::BITS - free, piece, span);
    0
}

// Feeds a piece, and answers how many nodes were made.
pub fn feed_piece(area: &mut [u64], piece: &[u8], span: Span, log: &mut [u64]) -> u64
    requires { FeedPassed area.old (spanned piece.now span) log.old }
    ensures { FedPiece area.old (spanned piece.now span) log.old
        area.new log.new result }
{
    let total = area[Area::TOTAL];
    let before = area[Area::DONE];
    let written = feed_levels(area, piece, span, log);
    let made = (written / 2) as u64;
    area[Area::TOTAL] = total + span.bits;
    area[Area::DONE] = before + made;
    made
}
