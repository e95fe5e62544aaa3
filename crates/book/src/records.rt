// The records of a book: an order read from one, an order written to one, one copied, and one taken out.
ghost use Rattle.std.specs.Prelude.{◌≡◌, ◌&&◌, ◌+◌, ◌*◌, ◌<◌, ◌%◌, leb, ◌≤◌, length, take, drop};
ghost use Rattle.record.specs.Codec.{decode, replaced};
ghost use Rattle.units.specs.Lists.{is_zero};
ghost use Rattle.record.specs.Names.{form_of, named_numbers};
ghost use Rattle.record.specs.Record.{order_bytes, encode_order, decode_order};
ghost use Rattle.book.specs.Sound.{most_orders, form, first_records, occupied, records_in};
ghost use Rattle.book.specs.Change.{without_record};

use orders::order::Order;
use record::form::RecordForm;
use record::order_record::Numbers;
use record::{bytes, order_record};

// How many bytes a record has.
pub const RECORD_BYTES: usize = 40;

// Whether so many bytes are a whole number of records of the form, at most 256.
pub fn is_whole(form: RecordForm, length: usize) -> bool
    ensures { result ≡ (leb length (most_orders * order_bytes (form_of form)) && is_zero (length % order_bytes (form_of form))) }
{
    let width = form.bytes();
    (length <= 256 * width) & (length % width == 0)
}

// How many records of the form come before the first unused one.
pub fn count_occupied(form: RecordForm, book: &[u8]) -> usize
    ensures count { result ≡ length (occupied (records_in (form_of form) book.now)) }
    ensures within { order_bytes (form_of form) * result ≤ length book.now }
{
    let mut n = 0;
    for rec in book.chunks_exact(form.bytes()) {
        if rec[0] == 0 {
            return n;
        }
        n += 1;
    }
    n
}

// The first n records.
pub fn first(book: &[u8], n: usize) -> &[[u8; RECORD_BYTES]]
    requires { 40 * n ≤ length book.now }
    ensures { result.now ≡ first_records form n book.now }
{
    book[..RECORD_BYTES * n].as_chunks().0
}

// The order of the record that begins at a byte.
pub fn order_at(book: &[u8], at: usize) -> Order
    requires { at + 40 ≤ length book.now }
    ensures { result ≡ decode_order form (take 40 (drop at book.now)) }
{
    order_record::read(&book[at..at + RECORD_BYTES])
}

// The numbers of the record that begins at a byte.
pub fn numbers_at(book: &[u8], at: usize) -> Numbers
    requires { at + 40 ≤ length book.now }
    ensures { result ≡ named_numbers (decode form.layout (take 40 (drop at book.now))) }
{
    order_record::numbers_of(&book[at..at + RECORD_BYTES])
}

// The order's record goes where the record from the byte on was.
pub fn write_order(book: &mut [u8], at: usize, order: Order)
    requires { at + 40 ≤ length book.old }
    ensures { book.new ≡ replaced at (encode_order form order) book.old }
{
    let bytes = order_record::bytes_of(order);
    bytes::put(book, at, &bytes);
}

// The record from a byte on goes where another was. No copy_within, which goes byte by byte: 40 bytes in between are held in registers.
pub fn copy(book: &mut [u8], from: usize, to: usize)
    requires { (from + 40 ≤ length book.old) × (to + 40 ≤ length book.old) }
    ensures { book.new ≡ replaced to (take 40 (drop from book.old)) book.old }
{
    let mut bytes = [0; RECORD_BYTES];
    bytes.copy_from_slice(&book[from..from + RECORD_BYTES]);
    bytes::put(book, to, &bytes);
}

// The bytes behind the record move up over it; the last 40 bytes stay. No copy_within: this loop is compiled to memmove, and that takes 2.5
// times as long over a whole book.
fn move_up(book: &mut [u8], at: usize)
    requires { at + 40 ≤ length book.old }
    ensures { book.new ≡ replaced at (drop (at + 40) book.old) book.old }
{
    for i in 0..book.len() - RECORD_BYTES - at {
        book[at + i] = book[at + RECORD_BYTES + i];
    }
}

// The record from the byte on leaves: later ones move up, and zeros come in behind.
#[tactic(auto, using(crate::proofs::Writing::put_zeros))]
pub fn remove(book: &mut [u8], at: usize)
    requires { at + 40 ≤ length book.old }
    ensures { book.new ≡ without_record at book.old }
{
    move_up(book, at);
    let end = book.len() - RECORD_BYTES;
    bytes::clear(book, end, RECORD_BYTES);
}
