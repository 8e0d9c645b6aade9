// Prints every word that Appendix C of the report prints: the window of each node, its intermediate words and its output.
// The file stdout is made from the report's text by tests/appendix_c/expected.py, and not from this code.
#![tactic(auto)]

ghost use Rattle.std.specs.Prelude.{◌≡◌, ◌+◌, ◌^◌, ◌≤◌, ◌<◌, length};
ghost use Rattle.constants.specs.Constants.{RoundTable};

use std::io;

// The bytes 11 22 33 44 55 66 77, repeated, as words: word i of the message is entry i mod 7.
const REPEATED: [u64; 7] = [
    0x1122334455667711,
    0x2233445566771122,
    0x3344556677112233,
    0x4455667711223344,
    0x5566771122334455,
    0x6677112233445566,
    0x7711223344556677,
];

// The six words of 991 that the report's text misprints; a line `misprint` stands for each. Nodes are counted from 0 in
// the order of the appendix. Four have 15 digits: A[102] of nodes 0 and 3 (the same word is whole at node 2), and
// A[132] and A[138] of node 2. A[51] of node 3 differs from the word that it repeats, C[10] of node 2, in a digit.
// A[135] of node 0 has fdcdcaaa for fdfdcaaa: the words after it follow from the second only.
fn misprinted(node: usize, i: usize) -> bool {
    match node {
        0 => i == 102 || i == 135,
        2 => i == 132 || i == 138,
        3 => i == 51 || i == 102,
        _ => false,
    }
}

// Prints words as A[first] on of a node, one to a line.
fn print_words(rt: &impl Print, node: usize, first: usize, words: &[u64]) -> io::Result<()>
    requires { first + length words.now < 2 ^ 16 }
{
    for (i, word) in words.iter().enumerate() {
        if misprinted(node, first + i) {
            println!(rt; "misprint")?;
        } else {
            println!(rt; "{word:016x}")?;
        }
    }
    Ok(())
}

// The constants of the first rounds, which each compression is lent.
#[derive(Drop)]
struct Lent {
    constants: [u64; constants::PART],
    ghost table: { RoundTable 0 constants },
}

// A node with five rounds of which the report prints all words: A[0] to A[72], and then the outputs of 0 to 5 rounds,
// which are A[73] to A[168].
fn print_all(rt: &impl Print, node: usize, window: &[u64; 89], lent: &Lent) -> io::Result<()> {
    print_words(rt, node, 0, &window[..73])?;
    for r in 0..6 {
        let c = compress::compress(window, &lent.constants, r);
        print_words(rt, node, 73 + 16 * r, &c)?;
    }
    Ok(())
}

// The window of a node: Q, a key of at most 16 bytes, U, V and the block.
fn window_of(k0: u64, k1: u64, u: u64, v: u64, block: &[u64; 64]) -> [u64; 89] {
    let mut w = [0u64; 89];
    let q = compress::q_words();
    w[..15].copy_from_slice(&q);
    w[25..].copy_from_slice(block);
    w[15] = k0;
    w[16] = k1;
    w[23] = u;
    w[24] = v;
    w
}

// The block of a node above two others: their outputs, and padding.
fn joined(left: &[u64; 16], right: &[u64; 16]) -> [u64; 64] {
    let mut block = [0u64; 64];
    block[..16].copy_from_slice(left);
    block[16..32].copy_from_slice(right);
    block
}

// Writes words of the repeated message, from its word `from` on, to the whole of a part of a block.
fn fill(part: &mut [u64], from: usize)
    requires { from + length part.old < 2 ^ 16 }
{
    for (i, word) in part.iter_mut().enumerate() {
        *word = REPEATED[(from + i) % 7];
    }
}

// C.1: "abc", d = 256, r = 5.
fn first_example(rt: &impl Print, lent: &Lent) -> io::Result<()> {
    let mut block = [0u64; 64];
    block[0] = 0x6162630000000000;
    let w = window_of(0, 0, 0x0100000000000000, 0x00054010fe800100, &block);
    print_all(rt, 0, &w, lent)
}

// A window of C.2, with the key "abcde12345".
fn keyed(u: u64, v: u64, block: &[u64; 64]) -> [u64; 89] {
    window_of(0x6162636465313233, 0x3435000000000000, u, v, block)
}

// The leaves of C.2, whose words are printed, and the block of the root over them. They are compressed two at a time, so that the
// root's window, which the report prints, has the outputs of both.
fn leaves(rt: &impl Print, lent: &Lent) -> io::Result<[u64; 64]> {
    let mut left = [0u64; 64];
    fill(&mut left, 0);
    let one = keyed(0x0100000000000000, 0x000540000000a0e0, &left);
    print_all(rt, 1, &one, lent)?;
    let mut right = [0u64; 64];
    fill(&mut right[..11], 64);
    let other = keyed(0x0100000000000001, 0x00054000d400a0e0, &right);
    print_all(rt, 2, &other, lent)?;
    let two = compress::compress_two(&one, &other, &lent.constants, 5);
    let c = two.first;
    let d = two.second;
    Ok(joined(&c, &d))
}

// C.2: 600 bytes, d = 224, r = 5: two leaves, and the root over their outputs.
fn second_example(rt: &impl Print, lent: &Lent) -> io::Result<()> {
    let above = leaves(rt, lent)?;
    let root = keyed(0x0200000000000000, 0x000540108000a0e0, &above);
    print_all(rt, 3, &root, lent)
}

// A node of C.3, of which the report prints only the window and the output: U and V, the output before it, and so many
// words of the message from word 48 * index on.
fn sequential(
    rt: &impl Print,
    index: usize,
    v: u64,
    chain: &[u64; 16],
    words: usize,
    lent: &Lent,
) -> io::Result<[u64; 16]>
    requires { (index < 3) × (words ≤ 48) }
{
    let mut block = [0u64; 64];
    block[..16].copy_from_slice(chain);
    let end = 16 + words;
    fill(&mut block[16..end], 48 * index);
    let w = window_of(0, 0, 0x0100000000000000 + index as u64, v, &block);
    print_words(rt, 4 + index, 0, &w)?;
    let c = compress::compress(&w, &lent.constants, 104);
    print_words(rt, 4 + index, 1737, &c)?;
    Ok(c)
}

// C.3: 800 bytes, L = 0, d = 256, r = 104: three nodes in sequence.
fn third_example(rt: &impl Print, lent: &Lent) -> io::Result<()> {
    let none = [0u64; 16];
    let c = sequential(rt, 0, 0x0068000000000100, &none, 48, lent)?;
    let d = sequential(rt, 1, 0x0068000000000100, &c, 48, lent)?;
    sequential(rt, 2, 0x00680010b0000100, &d, 4, lent)?;
    Ok(())
}

fn main(rt: HostRuntime) -> io::Result<()> {
    let lent = Lent {
        constants: constants::first_part(),
    };
    first_example(&rt, &lent)?;
    second_example(&rt, &lent)?;
    third_example(&rt, &lent)
}
