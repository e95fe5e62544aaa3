// Books of the old form: their orders counted, and their soundness.
ghost use Rattle.std.specs.Prelude.{◌≡◌, true, ◌*◌, ◌≤◌, length};
ghost use Rattle.record.specs.Record.{old_form};
ghost use Rattle.book.specs.Sound.{occupied, records_in, sound_in};
ghost use Rattle.conversion.specs.Conversion.{is_whole};

use crate::turning;
use book::records;
use record::bytes;
use record::form::RecordForm;

// How many bytes a record has.
const OLD_BYTES: usize = 32;

// How many records come before the first unused one.
pub(crate) fn count_occupied(book: &[u8]) -> usize
    ensures { (result ≡ length (occupied (records_in old_form book.now))) × (32 * result ≤ length book.now) }
{
    records::count_occupied(RecordForm::Old, book)
}

// Whether a book of n orders, and of a length that a book may have, is sound: it has records of its own form and zeros behind them, and would
// be sound in the new form.
pub(crate) fn is_sound(book: &[u8], n: usize) -> bool
    requires { (is_whole old_form (length book.now) ≡ true)
        × (n ≡ length (occupied (records_in old_form book.now)))
        × (32 * n ≤ length book.now) }
    ensures { result ≡ sound_in old_form book.now }
{
    let mut renewed = [0; 10_240];
    let end = turning::turn(book, RecordForm::Old, &mut renewed, RecordForm::New, n);
    turning::are_plain(book, RecordForm::Old, n)
        & bytes::zeros(&book[OLD_BYTES * n..])
        & lookup::occupancy(&renewed[..end]).is_ok()
}
