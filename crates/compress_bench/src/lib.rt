// What the benchmark of the compression links; nothing else uses it.
#![tactic(auto)]

// Compresses a window so many times, one after the other, with the constants of the first rounds copied once for all of
// them. Each output changes a word of the next window, so that no compression can be left out; the last one is
// written to out. A window of other than 89 words, an output of other than 16 or more than 4,095 rounds change nothing.
#[unsafe(no_mangle)]
pub extern "C" fn md6_bench_compress(window: &[u64], rounds: usize, times: usize, out: &mut [u64]) {
    if window.len() != 89 || out.len() != 16 || 4095 < rounds {
        return;
    }
    let first = constants::first_part();
    let mut w = [0u64; 89];
    w.copy_from_slice(window);
    let mut c = [0u64; 16];
    for _ in 0..times {
        c = compress::compress(&w, &first, rounds);
        w[25] = w[25] ^ c[0];
    }
    out.copy_from_slice(&c);
}

// The same with two windows at a time, which stand one after the other, as do their outputs. The two stay apart, since
// bench/compress.c calls each by its C name.
#[unsafe(no_mangle)]
pub extern "C" fn md6_bench_compress_two(
    windows: &[u64],
    rounds: usize,
    times: usize,
    out: &mut [u64],
) {
    if windows.len() != 178 || out.len() != 32 || 4095 < rounds {
        return;
    }
    let first = constants::first_part();
    let (one, other) = windows.split_at(89);
    let mut w = [0u64; 89];
    w.copy_from_slice(one);
    let mut v = [0u64; 89];
    v.copy_from_slice(other);
    let mut c = [0u64; 16];
    let mut d = [0u64; 16];
    for _ in 0..times {
        let next = compress::compress_two(&w, &v, &first, rounds);
        c = next.first;
        d = next.second;
        w[25] = w[25] ^ c[0];
        v[25] = v[25] ^ d[0];
    }
    out[..16].copy_from_slice(&c);
    out[16..].copy_from_slice(&d);
}
