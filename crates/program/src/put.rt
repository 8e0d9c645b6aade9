// What is printed, put at the front of a text. Each function answers how many bytes it put.
ghost use Rattle.std.specs.Prelude.{◌≡◌, ◌++◌, ◌/◌, ◌<◌, ◌≤◌, length, drop};
ghost use Rattle.print.specs.Print.{node_lines, digest_line};
ghost use Rattle.program.specs.Printed.{refused_line, refused_number};
ghost use Rattle.program.specs.Taken.{text_bytes, put_of};

// Copies a text to the front, and answers how many bytes it has.
fn copy(text: &[u8], out: &mut [u8]) -> usize
    requires { length text.now ≤ length out.old }
    ensures count { result ≡ length text.now }
    ensures copied { out.new ≡ text.now ++ drop (length text.now) out.old }
{
    let n = text.len();
    out[..n].copy_from_slice(text);
    n
}

// An unreadable first line.
pub fn refused_line(out: &mut [u8]) -> usize
    requires { text_bytes ≤ length out.old }
    ensures { record { count = result; out = out.new } ≡ put_of refused_line out.old }
{
    copy(b"refused line\n", out)
}

// A refusal by number. Its digits are put by hand: of what `write!` puts into a slice, std promises nothing.
pub fn refused_number(out: &mut [u8], number: u64) -> usize
    requires { (text_bytes ≤ length out.old) × (number < 100) }
    ensures { record { count = result; out = out.new } ≡ put_of (refused_number number) out.old }
{
    let n = number as u8;
    copy(b"refused ", out);
    if n < 10 {
        out[8] = b'0' + n;
        out[9] = 10;
        return 10;
    }
    out[8] = b'0' + n / 10;
    out[9] = b'0' + n % 10;
    out[10] = 10;
    11
}

// The lines of a log's nodes.
pub fn nodes(out: &mut [u8], log: &[u64]) -> usize
    requires { (text_bytes ≤ length out.old) × (length log.now ≤ 566) }
    ensures { record { count = result; out = out.new } ≡ put_of (node_lines (length log.now / 2) log.now) out.old }
{
    print::put_nodes(out, log);
    print::NODE_LINE * (log.len() / 2)
}

// The lines of a log's nodes, and the line of a digest.
pub fn last(out: &mut [u8], log: &[u64], digest: &[u8]) -> usize
    requires { (text_bytes ≤ length out.old) × (length log.now ≤ 566) × (length digest.now ≤ 64) }
    ensures { record { count = result; out = out.new }
        ≡ put_of (node_lines (length log.now / 2) log.now ++ digest_line digest.now) out.old }
{
    let at = nodes(out, log);
    print::put_digest(&mut out[at..], digest);
    at + 2 * digest.len() + 1
}
