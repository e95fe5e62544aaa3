// The lines that a fillsheet writes, as bytes at the start of a buffer. No Display: `write!` doesn't promise that it succeeds where there
// is room, and a String needs heap.
#![tactic(auto)]

mod fields;

ghost use Rattle.std.specs.Prelude.{◌++◌, ◌+◌, ◌≤◌, length, drop};
ghost use Rattle.record.specs.Execution.{decode_execution};
ghost use Rattle.units.specs.Text.{line_feed};
ghost use Rattle.listing.specs.Listing.{Placed, field, execution_line, left_line, refusal_line};

use fields::{put_field, put_text};
use record::bytes;

// The line of the execution that begins at a byte. Gives its length.
pub fn execution_line(executions: &[u8], at: usize, out: &mut [u8]) -> usize
    requires { (at + 16 ≤ length executions.now) × (33 ≤ length out.old) }
    ensures { (result ≤ 33) × Placed 0 (execution_line (decode_execution (drop at executions.now))) out.old out.new result }
{
    let number = bytes::read_u32(executions, at + 4);
    let price = bytes::read_u32(executions, at + 8);
    let shares = bytes::read_u32(executions, at + 12);
    let first = put_field(out, 0, number, b' ');
    let second = put_field(out, first, price, b' ');
    put_field(out, second, shares, b'\n')
}

// A word and a number. Gives the line's length.
fn word_line(word: &[u8], n: u32, out: &mut [u8]) -> usize
    requires { (length word.now ≤ 22) × (33 ≤ length out.old) }
    ensures { (result ≤ 33) × Placed 0 (word.now ++ field n line_feed) out.old out.new result }
{
    let behind = put_text(out, 0, word);
    put_field(out, behind, n, b'\n')
}

// The line of the shares left. Gives its length.
pub fn left_line(left: u32, out: &mut [u8]) -> usize
    requires { 33 ≤ length out.old }
    ensures { (result ≤ 33) × Placed 0 (left_line left) out.old out.new result }
{
    word_line(b"left ", left, out)
}

// The line of a refusal. Gives its length.
pub fn refusal_line(refusal: u32, out: &mut [u8]) -> usize
    requires { 33 ≤ length out.old }
    ensures { (result ≤ 33) × Placed 0 (refusal_line refusal) out.old out.new result }
{
    word_line(b"refused ", refusal, out)
}
