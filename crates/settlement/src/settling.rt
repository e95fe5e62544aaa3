// The orders of a book lose their shares, and the gaps of those that leave are closed.
ghost use Rattle.std.specs.Prelude.{◌≡◌, true, false, ◌||◌, ◌+◌, ◌≤◌, ◌<◌, length, get_or, ltb};
ghost use Rattle.units.specs.Lists.{filter, zip_with};
ghost use Rattle.orders.specs.Order.{settled, is_resting};
ghost use Rattle.orders.specs.Losses.{losses_in};
ghost use Rattle.record.specs.Codec.{replaced};
ghost use Rattle.record.specs.Record.{encode_order};
ghost use Rattle.book.specs.Sound.{form, sound, orders_of, book_of, capacity_of};
ghost use Rattle.settlement.specs.Moves.{moves_of, displaced};
ghost use Rattle.settlement.specs.Losing.{RecordAt, Records, left_at, left_in, closed_up};

use book::records;
use book::records::RECORD_BYTES;
use record::{bytes, order_record};
use units::Shares;

// Whether any shares are lost.
fn any_lost(shown: Shares, hidden: Shares) -> bool
    ensures { result ≡ (ltb 0 shown.0 || ltb 0 hidden.0) }
{
    (0 < shown.0) | (0 < hidden.0)
}

// Whether the order of a sound record still rests after it lost shares.
#[tactic(auto, using(crate::proofs::Losing::rests_same, record::proofs::Records::new_numbers))]
fn stays(book: &[u8], at: usize, shown: Shares, hidden: Shares) -> bool
    requires { RecordAt book.now at }
    ensures { result ≡ is_resting (left_at book.now at shown.0 hidden.0) }
{
    if any_lost(shown, hidden) {
        return order_record::rests_after(records::numbers_at(book, at), shown, hidden);
    }
    true
}

// The order of one record, without the shares that it lost, is written to another, or to its own.
fn rewrite(book: &mut [u8], from: usize, to: usize, shown: Shares, hidden: Shares)
    requires { (from + 40 ≤ length book.old) × (to + 40 ≤ length book.old) }
    ensures { book.new ≡ replaced to (encode_order form (left_at book.old from shown.0 hidden.0)) book.old }
{
    let order = records::order_at(book, from);
    records::write_order(book, to, order.settled(shown, hidden));
}

// The order of a sound record loses shares where it stands. Where it loses none, nothing is written.
#[tactic(auto, using(crate::proofs::Losing::bytes_same, record::proofs::Numbers::are_bytes))]
fn lose(book: &mut [u8], at: usize, shown: Shares, hidden: Shares)
    requires { RecordAt book.old at }
    ensures { book.new ≡ replaced at (encode_order form (left_at book.old at shown.0 hidden.0)) book.old }
{
    if any_lost(shown, hidden) {
        rewrite(book, at, at, shown, hidden);
    }
}

// A sound record moves to another place, and its order loses shares on the way.
#[tactic(auto, using(crate::proofs::Losing::record_same, record::proofs::Numbers::are_bytes))]
fn move_up(book: &mut [u8], from: usize, to: usize, shown: Shares, hidden: Shares)
    requires { RecordAt book.old from × (to + 40 ≤ length book.old) }
    ensures { book.new ≡ replaced to (encode_order form (left_at book.old from shown.0 hidden.0)) book.old }
{
    if any_lost(shown, hidden) {
        rewrite(book, from, to, shown, hidden);
    } else {
        records::copy(book, from, to);
    }
}

// The orders of n records lose their shares, and the first leaves. Those that still rest move up, each once, and zeros come in behind them.
// Gives the number of moves.
fn close_gaps(part: &mut [u8], n: usize, shown: &[u32], hidden: &[u32]) -> usize
    requires { Records part.old n shown.now hidden.now
        × (0 < n)
        × (is_resting (left_at part.old 0 (get_or shown.now 0 0) (get_or hidden.now 0 0)) ≡ false) }
    ensures bytes { part.new
        ≡ closed_up n (filter is_resting (left_in n shown.now hidden.now part.old)) part.old }
    ensures moves { result ≡ moves_of (left_in n shown.now hidden.now part.old) }
{
    let mut kept = 0;
    for i in 1..n {
        let s = Shares(shown[i]);
        let h = Shares(hidden[i]);
        if stays(part, RECORD_BYTES * i, s, h) {
            move_up(part, RECORD_BYTES * i, RECORD_BYTES * kept, s, h);
            kept += 1;
        }
    }
    bytes::clear(part, RECORD_BYTES * kept, RECORD_BYTES * (n - kept));
    kept
}

// Each of the n orders loses its shares: one before the first that leaves where it stands, and from there on the gaps are closed. Gives the
// number of moves, 0 where none leaves.
pub fn settle(book: &mut [u8], n: usize, shown: &[u32], hidden: &[u32]) -> usize
    requires { (sound book.old ≡ true)
        × (n ≡ length (orders_of book.old))
        × (n ≤ length shown.now)
        × (n ≤ length hidden.now) }
    ensures bytes { book.new
        ≡ book_of (capacity_of book.old) (filter is_resting (zip_with settled (losses_in n shown.now hidden.now) (orders_of book.old))) }
    ensures moves { result ≡ moves_of (zip_with settled (losses_in n shown.now hidden.now) (orders_of book.old)) }
    ensures places { result ≡ displaced (orders_of book.old) (orders_of book.new) }
{
    for i in 0..n {
        let at = RECORD_BYTES * i;
        let s = Shares(shown[i]);
        let h = Shares(hidden[i]);
        if !stays(book, at, s, h) {
            return close_gaps(&mut book[at..], n - i, &shown[i..], &hidden[i..]);
        }
        lose(book, at, s, h);
    }
    0
}
