// convert: reads a book from standard input and writes it in the other form to standard output.
#![tactic(auto)]

ghost use Rattle.std.specs.Prelude.{◌≡◌, ◌≤◌, IfOk, length};

use book::refusal::Refusal;
use record::form::RecordForm;
use std::io;
use std::io::{Cursor, Read};

// A book's length, at most.
const MOST_BYTES: usize = 10_240;

// One byte more is read.
const ROOM: usize = MOST_BYTES + 1;

// Stands in fillsheet too: a function of both that prints would be a crate of its own, with a contract that says nothing.
fn write_refusal(rt: &impl Print, refusal: u32) -> io::Result<()> {
    let mut line = [0u8; 33];
    let n = listing::refusal_line(refusal, &mut line);
    rt.write_all(&line[..n])
}

// How many records of a length so many bytes are, at most 256.
fn records(bytes: usize, width: usize) -> usize
    requires { 32 ≤ width }
    ensures { result ≤ 256 }
{
    (bytes / width).min(256)
}

// The bytes of as many records of a form as a book of so many bytes has in the other.
fn same_room(form: RecordForm, bytes: usize) -> usize
    ensures { result ≤ 10240 }
{
    match form {
        RecordForm::New => 40 * records(bytes, 32),
        RecordForm::Old => 32 * records(bytes, 40),
    }
}

// The book goes to the target's front in a form, with as many records as it has in the other. Gives its length there, or the refusal.
fn turn(book: &[u8], form: RecordForm, target: &mut [u8]) -> Result<usize, Refusal>
    requires { length target.old ≡ 10240 }
    ensures { IfOk result (λ n. n ≤ length target.new) }
{
    let end = same_room(form, book.len());
    let target = &mut target[..end];
    match form {
        RecordForm::New => conversion::to_new(book, target)?,
        RecordForm::Old => conversion::to_old(book, target)?,
    }
    Ok(end)
}

// A book that is sound in the old form goes to the new one, and any other is taken as one of the new form. The first refusal left the
// target as it was.
fn convert(rt: &impl Print, book: &[u8]) -> io::Result<()> {
    let mut target = [0u8; MOST_BYTES];
    let turned = match turn(book, RecordForm::New, &mut target) {
        Ok(n) => Ok(n),
        Err(_) => turn(book, RecordForm::Old, &mut target),
    };
    match turned {
        Ok(n) => rt.write_all(&target[..n]),
        Err(refusal) => write_refusal(rt, refusal.into()),
    }
}

// One byte more than the longest book is read, so that a longer one is refused.
fn main(rt: HostRuntime) -> io::Result<()> {
    let mut input = Cursor::new([0u8; ROOM]);
    let n = io::copy(&mut rt.stdin().take(ROOM as u64), &mut input)? as usize;
    convert(&rt, &input.get_ref()[..n.min(ROOM)])
}
