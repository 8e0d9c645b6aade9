// The end of a stream, in two halves: the last nodes and the digest, which only read the area, and then a wipe.
// An end does both, a preview the first alone, and a close the second only if the first gives the figure that it was given.
#![tactic(auto)]

ghost use Rattle.std.specs.Prelude.{◌≡◌, ◌*◌, ◌≤◌, length, set};
ghost use Rattle.tree.specs.Tree.{logged};
ghost use Rattle.refusals.specs.Refusals.{first_refusal, told_number, told_count};
ghost use Rattle.calls.specs.Area.{own_levels, Long, with_levels, empty_levels};
ghost use Rattle.calls.specs.Calls.{last_nodes_of, nodes_digest, close_tests, ended_area, digest_out, end_of, preview_of, close_of};
ghost use Rattle.calls.proofs.CallLaws.{EndPassed};
ghost use Rattle.climb.specs.OpenArea.{OpenArea};

use area::{Area, Phase};
use refusals::{Params, Refusal};

// The most words of log that an end needs: two for each level.
const MOST_LOG: usize = 2 * Area::LEVELS;

// The most bytes of a digest.
const MOST_DIGEST: usize = Params::MOST_DIGEST_BITS as usize / 8;

// The first half: makes the nodes that are left, U and V of which go to the log, and writes the digest. The area is only read.
fn make_digest(area: &[u64], digest: &mut [u8], log: &mut [u64])
    requires { EndPassed area.now digest.old log.old }
    ensures { (digest.new ≡ digest_out area.now (last_nodes_of area.now) digest.old)
        × (log.new ≡ logged (last_nodes_of area.now) log.old) }
{
    let root = last_nodes::make(area, log);
    node::digest::write_digest(&root, area[Area::D], digest);
}

// Word 0 says that the stream has ended, word 14 counts all nodes of its tree, and the levels hold nothing.
fn wipe(area: &mut [u64], nodes: u64)
    requires { Long area.old }
    ensures { area.new
        ≡ with_levels (set (set area.old 0 2) 14 nodes) (empty_levels (own_levels area.old)) }
{
    let e = Area::words(area[Area::LIMIT]);
    area[Area::PHASE] = u64::from(Phase::Ended);
    area[Area::DONE] = nodes;
    area[Area::HEAD..e].fill(0);
}

// The second half: wipes the area; answers how many nodes were left.
#[tactic(auto, unfolding(calls::specs::Calls::ended_area))]
fn end_area(area: &mut [u64]) -> u64
    requires { OpenArea area.old }
    ensures { (area.new ≡ ended_area area.old (last_nodes_of area.old))
        × (result ≡ length (last_nodes_of area.old)) }
{
    let nodes = numbers::nodes_left(area);
    let all = area[Area::DONE] + nodes;
    wipe(area, all);
    nodes
}

// Ends a stream.
#[tactic(auto, using(numbers::specs::NumberLaws::answer_of_refusal), unfolding(calls::specs::Calls::end_of, calls::specs::Calls::end_number))]
pub fn end(area: &mut [u64], digest: &mut [u8], log: &mut [u64]) -> Result<u64, Refusal>
    ensures { record {
      number = told_number result;
      count = told_count result;
      area = area.new;
      digest = digest.new;
      log = log.new;
    }
        ≡ end_of area.old digest.old log.old }
{
    numbers::check_end(area, digest, log)?;
    make_digest(area, digest, log);
    Ok(end_area(area))
}

// Writes the digest that an end would, and leaves the stream open as it is. The nodes are not logged.
#[tactic(auto, using(numbers::specs::NumberLaws::answer_of_refusal, calls::proofs::LogWords::last_bound), unfolding(calls::specs::Calls::preview_of, calls::specs::Calls::preview_number))]
pub fn preview(area: &[u64], digest: &mut [u8]) -> Result<u64, Refusal>
    ensures { record { number = told_number result; count = told_count result; digest = digest.new }
        ≡ preview_of area.now digest.old }
{
    numbers::check_preview(area, digest)?;
    let mut log = [0u64; MOST_LOG];
    make_digest(area, digest, &mut log);
    Ok(0)
}

// What refuses a close of an open area with a figure: the log's room, then the figure. The nodes are made for that, and U and V of them
// go to `made`, so that the lent log stays as it is if the close is refused.
fn check_figure(area: &[u64], figure: &[u8], log: &[u64], made: &mut [u64]) -> Result<(), Refusal>
    requires { OpenArea area.now × (2 * length (last_nodes_of area.now) ≤ length made.old) }
    ensures { (told_number result
        ≡ first_refusal (close_tests (length (last_nodes_of area.now)) (nodes_digest area.now (last_nodes_of area.now)) figure.now log.now))
        × (made.new ≡ logged (last_nodes_of area.now) made.old) }
{
    let mut digest = [0u8; MOST_DIGEST];
    make_digest(area, &mut digest, made);
    let bytes = numbers::digest_bytes(area);
    let same = words::same_bytes(&digest[..bytes], figure); // before the log is tested: a refusal by 8 takes as long as one by 14
    numbers::check_log(log, numbers::nodes_left(area))?;
    if !same {
        return Err(Refusal::Figure);
    }
    Ok(())
}

// Ends a stream if the given digest is the one that a preview would write.
#[tactic(auto, using(numbers::specs::NumberLaws::answer_of_refusal, calls::proofs::LogWords::last_bound), unfolding(calls::specs::Calls::close_of, calls::specs::Calls::close_number))]
pub fn close(area: &mut [u64], digest: &[u8], log: &mut [u64]) -> Result<u64, Refusal>
    ensures { record {
      number = told_number result;
      count = told_count result;
      area = area.new;
      log = log.new;
    }
        ≡ close_of area.old digest.now log.old }
{
    numbers::check_area(area)?;
    let mut made = [0u64; MOST_LOG];
    check_figure(area, digest, log, &mut made)?;
    let nodes = end_area(area);
    let n = 2 * (nodes as usize);
    log[..n].copy_from_slice(&made[..n]);
    Ok(nodes)
}
