// Whether a book is sound, part by part.
ghost use Rattle.std.specs.Prelude.{◌≡◌, ◌&&◌, ◌*◌, ◌≤◌, ◌%◌, leb, length, drop};
ghost use Rattle.units.specs.Lists.{all, is_zero};
ghost use Rattle.record.specs.Record.{record_sound};
ghost use Rattle.book.specs.Sound.{most_orders, form, record_bytes, rising, setters_sound, occupied, first_records, records_in, first_orders};

use crate::setters;
use book::records;
use book::records::RECORD_BYTES;
use record::form::RecordForm;
use record::{bytes, order_record};

// Whether so many bytes are a whole number of records, at most 256.
pub(crate) fn has_whole_records(length: usize) -> bool
    ensures { result ≡ (leb length (most_orders * record_bytes) && is_zero (length % record_bytes)) }
{
    records::is_whole(RecordForm::New, length)
}

// How many records come before the first unused one.
pub(crate) fn count_occupied(book: &[u8]) -> usize
    ensures { (result ≡ length (occupied (records_in form book.now))) × (40 * result ≤ length book.now) }
{
    records::count_occupied(RecordForm::New, book)
}

// Whether each of the first n records is sound by itself.
fn records_sound(book: &[u8], n: usize) -> bool
    requires { 40 * n ≤ length book.now }
    ensures { result ≡ all (record_sound form) (first_records form n book.now) }
{
    records::first(book, n)
        .iter()
        .fold(true, |sound, rec| sound & order_record::is_sound(rec))
}

// Whether the numbers of the first n orders rise strictly.
fn numbers_rise(book: &[u8], n: usize) -> bool
    requires { 40 * n ≤ length book.now }
    ensures { result ≡ rising 0 (first_orders n book.now) }
{
    let mut rising = true;
    let mut last = 0;
    for rec in records::first(book, n) {
        let number = order_record::read(rec).number;
        rising = rising & (last < number);
        last = number;
    }
    rising
}

// Whether the first n records are those of sound orders and every byte behind them is zero.
#[tactic(auto, using(crate::proofs::Ranges::apart_where, units::proofs::Scanning::take_rest))]
pub(crate) fn is_sound(book: &[u8], n: usize) -> bool
    requires { (40 * n ≤ length book.now) × (n ≤ 256) }
    ensures { result ≡ (all (record_sound form) (first_records form n book.now)
        && all is_zero (drop (40 * n) book.now)
        && rising 0 (first_orders n book.now)
        && setters_sound (first_orders n book.now)) }
{
    records_sound(book, n)
        & bytes::zeros(&book[RECORD_BYTES * n..])
        & numbers_rise(book, n)
        & setters::are_apart(book, n)
}
