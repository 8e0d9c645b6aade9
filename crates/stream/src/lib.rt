// A message that comes in pieces of any number of bits: an area of words that holds what is not compressed yet, and a log of
// every node. Document 01, "The stream's area".
#![tactic(auto)]

ghost use Rattle.std.specs.Prelude.{◌≡◌, true, ◌≤◌, ◌+◌, ◌*◌, length};
ghost use Rattle.tree.specs.Tree.{most_key_bytes};
ghost use Rattle.refusals.specs.Refusals.{told_number, told_count};
ghost use Rattle.calls.specs.Area.{area_words, level_start};
ghost use Rattle.calls.specs.Calls.{opened_area, open_of, feed_of, shown, level_of, area_words_of, log_words_of};

use area::{Area, Phase};
use bits::Span;
pub use ending::{close, end, preview};
use refusals::{Params, Refusal};

// Writes the words of an open area with no bits.
fn write_open(area: &mut [u64], key: &[u8], params: Params)
    requires { (area_words params.limit ≤ length area.old) × (length key.now ≤ most_key_bytes) × (params.keylen ≡ length key.now) }
    ensures { area.new
        ≡ opened_area area.old (record { key = key.entry.now; d = params.d; limit = params.limit; rounds = params.rounds }) }
{
    let e = Area::words(params.limit);
    area[Area::PHASE] = u64::from(Phase::Open);
    area[Area::TOTAL] = 0;
    area[Area::KEY_BYTES] = params.keylen;
    area[Area::D] = params.d;
    area[Area::LIMIT] = params.limit;
    area[Area::ROUNDS] = params.rounds;
    area[Area::KEY..e].fill(0);
    bits::fill(
        &mut area[Area::KEY..Area::KEY_END],
        0,
        key,
        0,
        0,
        8 * key.len(),
    );
}

// Opens a stream in an area, whatever it held.
#[tactic(auto, using(numbers::specs::NumberLaws::answer_of_refusal), unfolding(calls::specs::Calls::open_of, calls::specs::Calls::open_number))]
pub fn open(area: &mut [u64], key: &[u8], d: u64, limit: u64, rounds: u64) -> Result<u64, Refusal>
    ensures { record { number = told_number result; count = told_count result; area = area.new }
        ≡ open_of area.old (record { key = key.entry.now; d = d; limit = limit; rounds = rounds }) }
{
    let params = Params::new(key.len() as u64, d, limit, rounds);
    refusals::check_params(params)?;
    if area.len() < Area::words(limit) {
        return Err(Refusal::Area);
    }
    write_open(area, key, params);
    Ok(0)
}

// Whether a level can be shown: the area is long enough and sound, and has such a level.
#[tactic(auto, unfolding(calls::specs::Calls::shown, calls::specs::Area::params_of))]
fn is_shown(area: &[u64], level: u64) -> bool
    ensures { result ≡ shown area.now level }
{
    area::check_sound(area).is_ok() && 1 <= level && level <= Area::levels(area[Area::LIMIT]) as u64
}

// That level's part of the caller's area, or an empty part if the area is short or unsound or has no such level (no Option: clause
// `words` asks for the empty part). A part is told by what it holds, and by its address: the lent allocation, and a place in it in
// bytes, 8 a word.
#[tactic(auto, unfolding(calls::specs::Calls::level_of, calls::specs::Calls::shown))]
pub fn level(area: &[u64], level: u64) -> &[u64]
    ensures words { result.now ≡ level_of area.now level }
    ensures place { (result.ref_ptr.0 ≡ area.entry.ref_ptr.0)
        × (shown area.now level ≡ true → result.ref_ptr.1 ≡ level_start level * 8 + area.entry.ref_ptr.1) }
{
    if !is_shown(area, level) {
        return &area[0..0];
    }
    Area::level(area, level as usize)
}

// Feeds a piece: `bits` bits of its bytes, from bit `start` of the first byte on. Logs U and V of each node that is made.
#[tactic(auto, using(numbers::specs::NumberLaws::answer_of_refusal), unfolding(calls::specs::Calls::feed_of, calls::specs::Calls::feed_number))]
pub fn feed(
    area: &mut [u64],
    piece: &[u8],
    start: u64,
    bits: u64,
    log: &mut [u64],
) -> Result<u64, Refusal>
    ensures { record {
      number = told_number result;
      count = told_count result;
      area = area.new;
      log = log.new;
    }
        ≡ feed_of area.old (record { bytes = piece.now; start = start; count = bits }) log.old }
{
    let span = Span { start, bits };
    numbers::check_feed(area, piece, span, log)?;
    Ok(piece::feed_piece(area, piece, span, log))
}

// Tells how many words an area has, by the height limit.
#[tactic(auto, unfolding(calls::specs::Calls::area_words_of))]
pub fn area_words(limit: u64) -> Result<u64, Refusal>
    ensures { record { number = told_number result; count = told_count result } ≡ area_words_of limit }
{
    if Params::MOST_LIMIT < limit {
        return Err(Refusal::Limit);
    }
    Ok(Area::words(limit) as u64)
}

// Tells how many words of log a feed of so many bits needs: two for each node that it would make.
#[tactic(auto, using(numbers::specs::NumberLaws::answer_of_refusal), unfolding(calls::specs::Calls::log_words_of, calls::specs::Calls::log_words_number))]
pub fn log_words(area: &[u64], bits: u64) -> Result<u64, Refusal>
    ensures { record { number = told_number result; count = told_count result } ≡ log_words_of area.now bits }
{
    numbers::check_log_words(area, bits)?;
    Ok(2 * numbers::nodes_made(area, bits))
}
