// What the benchmark of the filler links; nothing else uses it.
#![tactic(auto)]

// Fills `times` times over. Arguments that `fill` does not take change nothing.
#[unsafe(no_mangle)]
pub extern "C" fn md6_bench_fill(
    block: &mut [u64],
    at: usize,
    bytes: &[u8],
    byte: usize,
    bit: usize,
    count: usize,
    times: usize,
) {
    if 7 < bit {
        return;
    }
    if 1024 < block.len() {
        return;
    }
    if 1048576 < bytes.len() {
        return;
    }
    if 64 * block.len() < at {
        return;
    }
    if 64 * block.len() - at < count {
        return;
    }
    if bytes.len() < byte {
        return;
    }
    if 8 * (bytes.len() - byte) < bit {
        return;
    }
    if 8 * (bytes.len() - byte) - bit < count {
        return;
    }
    for _ in 0..times {
        bits::fill(block, at, bytes, byte, bit, count);
    }
}
