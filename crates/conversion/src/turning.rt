// Records of one form turned into the other, and what has to hold of book and target for that.
ghost use Rattle.std.specs.Prelude.{◌≡◌, ◌+◌, ◌*◌, ◌≤◌, length};
ghost use Rattle.units.specs.Lists.{all, flat_map};
ghost use Rattle.record.specs.Codec.{replaced};
ghost use Rattle.record.specs.Record.{order_bytes};
ghost use Rattle.record.specs.Names.{form_of};
ghost use Rattle.book.specs.Sound.{first_records};
ghost use Rattle.conversion.specs.Conversion.{turned, turned_book, is_whole, is_unfit};
ghost use Rattle.conversion.specs.Plain.{is_plain};

use book::records;
use record::bytes;
use record::form::RecordForm;

// Whether so many bytes are a whole number of records, at most 256.
pub(crate) fn is_whole(form: RecordForm, length: usize) -> bool
    ensures { result ≡ is_whole (form_of form) length }
{
    records::is_whole(form, length)
}

// Whether so many bytes aren't, or have room for fewer than n orders.
pub(crate) fn is_unfit(form: RecordForm, length: usize, n: usize) -> bool
    ensures { result ≡ is_unfit (form_of form) length n }
{
    let width = form.bytes();
    !is_whole(form, length) | (length / width < n)
}

// Whether the old form tells what a record says; its mark is of its own form. The bytes that say it stand at the same places in both.
#[tactic(auto, using(crate::proofs::Plainness::plain_bytes))]
fn is_plain(rec: &[u8], form: RecordForm) -> bool
    requires { 32 ≤ length rec.now }
    ensures { result ≡ is_plain (form_of form) rec.now }
{
    let mark = form.mark();
    let kind = rec[3];
    bytes::same(&rec[..2], &mark)
        & ((1 <= kind) & (kind <= 3) & (rec[21] == 0) & ((rec[22] == 0) & (rec[23] == 0)))
}

// Whether it tells what each of the first n records says.
pub(crate) fn are_plain(book: &[u8], form: RecordForm, n: usize) -> bool
    requires { order_bytes (form_of form) * n ≤ length book.now }
    ensures { result ≡ all (is_plain (form_of form)) (first_records (form_of form) n book.now) }
{
    let width = form.bytes();
    let mut plain = true;
    for rec in book[..width * n].chunks_exact(width) {
        plain = plain & is_plain(rec, form);
    }
    plain
}

// A record goes to a place of the target, in its form.
#[tactic(auto, using(crate::proofs::Turned::put_parts))]
fn put_turned(target: &mut [u8], at: usize, form: RecordForm, rec: &[u8])
    requires { (at + order_bytes (form_of form) ≤ length target.old) × (32 ≤ length rec.now) }
    ensures { target.new ≡ replaced at (turned (form_of form) rec.now) target.old }
{
    let mark = form.mark();
    bytes::put(target, at, &mark);
    bytes::put(target, at + 2, &rec[2..32]);
    bytes::clear(target, at + 32, form.bytes() - 32);
}

// The first n records of a book go to the front of the target, in its form. Gives the first byte behind them.
pub(crate) fn turn(
    book: &[u8],
    from: RecordForm,
    target: &mut [u8],
    to: RecordForm,
    n: usize,
) -> usize
    requires { (order_bytes (form_of from) * n ≤ length book.now) × (order_bytes (form_of to) * n ≤ length target.old) }
    ensures { (result ≡ order_bytes (form_of to) * n)
        × (target.new ≡ replaced 0 (flat_map (turned (form_of to)) (first_records (form_of from) n book.now)) target.old) }
{
    let width = from.bytes();
    let step = to.bytes();
    let mut write = 0;
    for rec in book[..width * n].chunks_exact(width) {
        put_turned(target, write, to, rec);
        write += step;
    }
    write
}

// The target becomes the book of these records in its form: zeros come behind them.
#[tactic(auto, using(crate::proofs::Filling::filled_book))]
pub(crate) fn fill(book: &[u8], from: RecordForm, target: &mut [u8], to: RecordForm, n: usize)
    requires { (order_bytes (form_of from) * n ≤ length book.now) × (order_bytes (form_of to) * n ≤ length target.old) }
    ensures { target.new ≡ turned_book (form_of to) (length target.old) (first_records (form_of from) n book.now) }
{
    let end = turn(book, from, target, to, n);
    let rest = target.len() - end;
    bytes::clear(target, end, rest);
}
