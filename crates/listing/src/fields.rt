// Parts of a line: a text, and a number in decimal digits with a byte behind it.
ghost use Rattle.std.specs.Prelude.{◌≡◌, ◌+◌, ◌≤◌, length};
ghost use Rattle.record.specs.Codec.{replaced};
ghost use Rattle.listing.specs.Listing.{field, Placed};

use itoa::Buffer;

// A text goes into a buffer from a place on. Gives the place behind it.
pub(crate) fn put_text(out: &mut [u8], at: usize, text: &[u8]) -> usize
    requires { at + length text.now ≤ length out.old }
    ensures { Placed at text.now out.old out.new result }
{
    let behind = at + text.len();
    out[at..behind].copy_from_slice(text);
    behind
}

// The field of a number and a byte goes into a buffer from a place on. Gives the place behind it.
pub(crate) fn put_field(out: &mut [u8], at: usize, n: u32, end: u8) -> usize
    requires { at + 11 ≤ length out.old }
    ensures room { result ≤ at + 11 }
    ensures ends { result ≡ at + length (field n end) }
    ensures bytes { out.new ≡ replaced at (field n end) out.old }
{
    let mut buffer = Buffer::new();
    let behind = put_text(out, at, buffer.format(n).as_bytes());
    put_text(out, behind, &[end])
}
