// What refuses calls on an area: a feed, an end, a preview and the telling of log words, and what a close tests. The nodes that would be
// made are known from the totals, before any is.
#![tactic(auto)]

ghost use Rattle.std.specs.Prelude.{◌≡◌, false, [], ◌∷◌, length, replicate};
ghost use Rattle.bits.specs.PieceLaws.{spanned};
ghost use Rattle.tree.specs.Tree.{digest_bytes};
ghost use Rattle.refusals.specs.Refusals.{first_refusal, told_number, output_test, log_test};
ghost use Rattle.calls.specs.Area.{params_of};
ghost use Rattle.calls.specs.Calls.{open_tests, total_test, fed_bits, last_nodes_of, feed_number, end_number, preview_number, log_words_number};
ghost use Rattle.calls.proofs.CallLaws.{LogWordsPassed};
ghost use Rattle.climb.specs.OpenArea.{OpenArea};

use area::{Area, Phase, count};
use bits::Span;
use refusals::Refusal;

// That an area is long enough and sound, and that its stream has not ended.
pub fn check_area(area: &[u64]) -> Result<(), Refusal>
    ensures { told_number result ≡ first_refusal (open_tests area.now) }
{
    area::check_sound(area)?;
    if area[Area::PHASE] == u64::from(Phase::Ended) {
        return Err(Refusal::Ended);
    }
    Ok(())
}

// That a total does not pass 2^64 - 1.
fn check_total(total: u64, bits: u64) -> Result<(), Refusal>
    ensures { told_number result ≡ first_refusal (total_test total bits ∷ []) }
{
    if total.checked_add(bits).is_none() {
        return Err(Refusal::Total);
    }
    Ok(())
}

// That a log has 2 words a node.
pub fn check_log(log: &[u64], nodes: u64) -> Result<(), Refusal>
    ensures { told_number result ≡ first_refusal (log_test nodes log.now ∷ []) }
{
    if (log.len() as u64) / 2 < nodes {
        return Err(Refusal::Log);
    }
    Ok(())
}

// How many nodes a feed of so many bits to an open area makes: those that are then made, without those that are made already.
pub fn nodes_made(area: &[u64], bits: u64) -> u64
    requires { LogWordsPassed area.now bits }
    ensures { result ≡ length (fed_bits area.now (replicate bits false)).nodes }
{
    count::open_count(area[Area::LIMIT], area[Area::TOTAL] + bits) - area[Area::DONE]
}

// What refuses a feed.
#[tactic(auto, unfolding(calls::specs::Calls::feed_number))]
pub fn check_feed(area: &[u64], piece: &[u8], span: Span, log: &[u64]) -> Result<(), Refusal>
    ensures { told_number result ≡ feed_number area.now (spanned piece.now span) log.now }
{
    check_area(area)?;
    if refusals::refused_bits(piece, span) {
        return Err(Refusal::Bits);
    }
    check_total(area[Area::TOTAL], span.bits)?;
    check_log(log, nodes_made(area, span.bits))
}

// What refuses the telling of log words.
#[tactic(auto, unfolding(calls::specs::Calls::log_words_number))]
pub fn check_log_words(area: &[u64], bits: u64) -> Result<(), Refusal>
    ensures { told_number result ≡ log_words_number area.now bits }
{
    check_area(area)?;
    check_total(area[Area::TOTAL], bits)
}

// How many nodes the end of an open area makes: those of the whole tree that are not made yet. That an area is open is a clause here and in
// four more functions, no struct: C lends the area itself, so that each of them would have to make the struct from it first.
pub fn nodes_left(area: &[u64]) -> u64
    requires { OpenArea area.now }
    ensures { result ≡ length (last_nodes_of area.now) }
{
    shape::tree_nodes(area[Area::LIMIT], area[Area::TOTAL]) - area[Area::DONE]
}

// The bytes of an open area's digest.
#[tactic(auto, unfolding(calls::specs::Area::params_of))]
pub fn digest_bytes(area: &[u64]) -> usize
    requires { OpenArea area.now }
    ensures { result ≡ digest_bytes (params_of area.now).d }
{
    node::digest::digest_bytes(area[Area::D]) as usize
}

// That an output has room for an open area's digest.
fn check_output(area: &[u64], digest: &[u8]) -> Result<(), Refusal>
    requires { OpenArea area.now }
    ensures { told_number result
        ≡ first_refusal (output_test (digest_bytes (params_of area.now).d) digest.now ∷ []) }
{
    if digest.len() < digest_bytes(area) {
        return Err(Refusal::Output);
    }
    Ok(())
}

// What refuses an end.
#[tactic(auto, unfolding(calls::specs::Calls::end_number))]
pub fn check_end(area: &[u64], digest: &[u8], log: &[u64]) -> Result<(), Refusal>
    ensures { told_number result ≡ end_number area.now digest.now log.now }
{
    check_area(area)?;
    check_output(area, digest)?;
    check_log(log, nodes_left(area))
}

// What refuses a preview.
#[tactic(auto, unfolding(calls::specs::Calls::preview_number))]
pub fn check_preview(area: &[u64], digest: &[u8]) -> Result<(), Refusal>
    ensures { told_number result ≡ preview_number area.now digest.now }
{
    check_area(area)?;
    check_output(area, digest)
}
