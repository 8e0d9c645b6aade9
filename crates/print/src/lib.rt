// What the program prints, put into a text: the line of each node, and the line of a digest. Document 01, "Program".
#![tactic(auto)]

ghost use Rattle.std.specs.Prelude.{◌≡◌, ◌++◌, ◌+◌, ◌*◌, ◌/◌, ◌≤◌, length, drop};
ghost use Rattle.print.specs.Print.{node_line, line_bytes, node_lines, digest_line};

// The bytes of a node's line, 34: U and V of 16 digits each, the space between them, and byte 10.
pub const NODE_LINE: usize = 2 * 16 + 2;

// Puts the line of a node into a part of its length.
fn put_node(part: &mut [u8], u: u64, v: u64)
    requires { length part.old ≡ line_bytes }
    ensures { part.new ≡ node_line u v }
{
    digits::put_digits(&mut part[..16], u);
    part[16] = b' ';
    digits::put_digits(&mut part[17..33], v);
    part[33] = 10;
}

// Puts the lines of a log's nodes, of which it has U and V each, at the front of a text.
pub fn put_nodes(text: &mut [u8], log: &[u64])
    requires { line_bytes * (length log.now / 2) ≤ length text.old }
    ensures { text.new ≡ node_lines (length log.now / 2) log.now ++ drop (line_bytes * (length log.now / 2)) text.old }
{
    for i in 0..log.len() / 2 {
        let at = NODE_LINE * i;
        put_node(&mut text[at..at + NODE_LINE], log[2 * i], log[2 * i + 1]);
    }
}

// Puts the line of a digest at the front of a text. Its loop is digits::put_words with two digits a byte: one over both types would have
// a longer contract, by what `From` gives of each element, than the loop is.
pub fn put_digest(text: &mut [u8], digest: &[u8])
    requires { 2 * length digest.now + 1 ≤ length text.old }
    ensures { text.new ≡ digest_line digest.now ++ drop (2 * length digest.now + 1) text.old }
{
    for (i, byte) in digest.iter().enumerate() {
        let at = 2 * i;
        digits::put_digits(&mut text[at..at + 2], u64::from(*byte));
    }
    text[2 * digest.len()] = 10;
}
