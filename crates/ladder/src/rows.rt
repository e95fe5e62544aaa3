// The rows of a security's orders in a book: the orders put in the ladder's order, and a row for each stretch of one side and price.
ghost use Rattle.std.specs.Prelude.{◌≡◌, true, ◌∷◌, ◌++◌, ◌+◌, ◌-◌, ◌*◌, ◌≤◌, ◌<◌, length, take, drop, replicate};
ghost use Rattle.std.specs.Bool.{then_some};
ghost use Rattle.units.specs.Lists.{flat_map, same_numbers};
ghost use Rattle.ordering.specs.Sorted.{sorted};
ghost use Rattle.record.specs.Codec.{replaced};
ghost use Rattle.book.specs.Sound.{sound, orders_of, order_at};
ghost use Rattle.book.specs.Lookup.{orders_for};
ghost use Rattle.ladder.specs.Row.{encode_row};
ghost use Rattle.ladder.specs.Rows.{row_of, rows_of};
ghost use Rattle.ladder.specs.Along.{along_keys, Keyed, Lent};
ghost use Rattle.ladder.specs.Key.{rank_of, key_of, place_in, keys_from};
ghost use Rattle.ladder.specs.Ladder.{ladder_bytes, made_of};

use crate::row;
use crate::row::{ROW_BYTES, Row};
use book::records;
use book::records::RECORD_BYTES;
use orders::order::{Order, Side};
use record::bytes;
use units::Price;

// A ladder has a row for each of the 256 orders that a book may have.
pub(crate) const LADDER_ROWS: usize = 256;

pub(crate) const LADDER_BYTES: usize = LADDER_ROWS * ROW_BYTES;

// Where a price level stands in the ladder: sells by rising price, then buys by falling price.
fn rank_of(side: Side, price: Price) -> u32
    ensures { result ≡ rank_of side price.0 }
{
    let p = price.0;
    match side {
        Side::Buy => u32::MAX - p,
        Side::Sell => p,
    }
}

// An order's level and the place of its record as one number.
fn key_of(order: Order, place: usize) -> u64
    requires { place < 256 }
    ensures { result ≡ key_of place order }
{
    let side = order.side;
    let price = order.price;
    256 * (rank_of(side, price) as u64) + place as u64
}

// The keys of the security's orders, in the order of their records, at the front. Gives their number.
fn write_keys(book: &[u8], n: usize, security: u32, keys: &mut [u64]) -> usize
    requires { (sound book.now ≡ true) × (n ≡ length (orders_of book.now)) × (n ≤ length keys.old) }
    ensures { (result ≤ n) × (take result keys.new ≡ keys_from security 0 (orders_of book.now)) }
{
    let mut count = 0;
    for i in 0..n {
        let order = records::order_at(book, RECORD_BYTES * i);
        keys[count] = key_of(order, i);
        count += usize::from(order.security == security);
    }
    count
}

// The same, in the ladder's order. The spare keys are lent, and anything.
fn sort_keys(book: &[u8], n: usize, security: u32, keys: &mut [u64], spare: &mut [u64]) -> usize
    requires { (sound book.now ≡ true)
        × (n ≡ length (orders_of book.now))
        × (n ≤ length keys.old)
        × (n ≤ length spare.old) }
    ensures { (result ≤ length keys.new) × (take result keys.new ≡ sorted (keys_from security 0 (orders_of book.now))) }
{
    let count = write_keys(book, n, security, keys);
    ordering::sort(&mut keys[..count], spare);
    count
}

// The row of a key's order alone.
#[tactic(auto, using(book::proofs::Checking::sound_fits))]
fn row_at(book: &[u8], key: u64) -> Row
    requires { (sound book.now ≡ true) × (place_in key < length (orders_of book.now)) }
    ensures { result ≡ row_of (order_at book.now (place_in key)) }
{
    let place = (key % 256) as usize;
    row::row_of(records::order_at(book, RECORD_BYTES * place))
}

// A row goes into the ladder where the row of this place was.
fn write_row(ladder: &mut [u8], place: usize, row: Row)
    requires { 24 * place + 24 ≤ length ladder.old }
    ensures { ladder.new ≡ replaced (24 * place) (encode_row row) ladder.old }
{
    let bytes = row::bytes_of(row);
    bytes::put(ladder, ROW_BYTES * place, &bytes);
}

// A level's row, and the place of the next level's first key.
#[derive(Clone, Copy)]
struct Level {
    row: Row,
    end: usize,
}

// The level that begins with the key at a place.
fn level_at(book: &[u8], keys: &[u64], from: usize) -> Level
    requires { Keyed book.now keys.now × (from < length keys.now) }
    ensures { (from < result.end)
        × (result.end ≤ length keys.now)
        × (along_keys book.now (drop from keys.now) ≡ result.row ∷ along_keys book.now (drop result.end keys.now)) }
{
    let mut row = row_at(book, keys[from]);
    for i in from + 1..keys.len() {
        let next = row_at(book, keys[i]);
        if !row::same_level(row, next) {
            return Level { row, end: i };
        }
        row = row::joined(row, next);
    }
    Level {
        row,
        end: keys.len(),
    }
}

// The rows of orders whose keys rise go to the front of the ladder. Gives their number.
fn write_rows(book: &[u8], keys: &[u64], ladder: &mut [u8]) -> usize
    requires { Keyed book.now keys.now × (24 * length keys.now ≤ length ladder.old) }
    ensures { (result ≡ length (along_keys book.now keys.now))
        × (ladder.new ≡ flat_map encode_row (along_keys book.now keys.now) ++ drop (24 * result) ladder.old) }
{
    let mut count = 0;
    let mut i = 0;
    // Stays a while: the index goes from level to level.
    while i < keys.len() {
        let level = level_at(book, keys, i);
        let row = level.row;
        write_row(ladder, count, row);
        count += 1;
        i = level.end;
    }
    count
}

// Whether the row of this place is this one.
fn has_row(ladder: &[u8], place: usize, row: Row) -> bool
    requires { 24 * place + 24 ≤ length ladder.now }
    ensures { result ≡ same_numbers (take 24 (drop (24 * place) ladder.now)) (encode_row row) }
{
    let bytes = row::bytes_of(row);
    let at = ROW_BYTES * place;
    bytes::same(&ladder[at..at + ROW_BYTES], &bytes)
}

// The number of the rows of orders whose keys rise, where the ladder begins with them.
fn hold_rows(book: &[u8], keys: &[u64], ladder: &[u8]) -> Option<usize>
    requires { Keyed book.now keys.now × (24 * length keys.now ≤ length ladder.now) }
    ensures { result ≡ then_some
        (same_numbers (take (24 * length (along_keys book.now keys.now)) ladder.now) (flat_map encode_row (along_keys book.now keys.now)))
        (length (along_keys book.now keys.now)) }
{
    let mut same = true;
    let mut rows = 0;
    let mut i = 0;
    // Stays a while: the index goes from level to level.
    while i < keys.len() {
        let level = level_at(book, keys, i);
        let row = level.row;
        same = same & has_row(ladder, rows, row);
        rows += 1;
        i = level.end;
    }
    same.then_some(rows)
}

// The ladder of a security in a sound book of n orders takes the place of one that has zeros behind its first rows, so many. There is a key
// for each order, and no less spare; both are lent, and anything.
fn renew_in(
    book: &[u8],
    n: usize,
    security: u32,
    keys: &mut [u64],
    spare: &mut [u64],
    ladder: &mut [u8],
    rows: usize,
)
    requires { Lent book.now n keys.old spare.old ladder.old
        × (rows ≤ 256)
        × (drop (24 * rows) ladder.old ≡ replicate (24 * (256 - rows)) 0) }
    ensures { ladder.new ≡ made_of security book.now }
{
    let orders = sort_keys(book, n, security, keys, spare);
    let count = write_rows(book, &keys[..orders], ladder);
    if count < rows {
        bytes::clear(ladder, ROW_BYTES * count, ROW_BYTES * (rows - count));
    }
}

// The ladder's number of rows, where it is that of a security in a sound book, to the last byte. Keys are lent as above.
fn hold_in(
    book: &[u8],
    n: usize,
    security: u32,
    keys: &mut [u64],
    spare: &mut [u64],
    ladder: &[u8],
) -> Option<usize>
    requires { Lent book.now n keys.old spare.old ladder.now }
    ensures { result ≡ then_some (same_numbers ladder.now (made_of security book.now)) (length (rows_of (orders_for security book.now))) }
{
    let orders = sort_keys(book, n, security, keys, spare);
    let rows = hold_rows(book, &keys[..orders], ladder)?;
    bytes::zeros(&ladder[ROW_BYTES * rows..]).then_some(rows)
}

// The same with memory for the keys of as many orders as a book may have.
#[tactic(auto, using(book::proofs::Checking::sound_fits))]
pub(crate) fn renew(book: &[u8], n: usize, security: u32, ladder: &mut [u8], rows: usize)
    requires { (sound book.now ≡ true)
        × (n ≡ length (orders_of book.now))
        × (length ladder.old ≡ ladder_bytes)
        × (rows ≤ 256)
        × (drop (24 * rows) ladder.old ≡ replicate (24 * (256 - rows)) 0) }
    ensures { ladder.new ≡ made_of security book.now }
{
    let mut keys = [0; 256];
    let mut spare = [0; 256];
    renew_in(book, n, security, &mut keys, &mut spare, ladder, rows);
}

#[tactic(auto, using(book::proofs::Checking::sound_fits))]
pub(crate) fn hold(book: &[u8], n: usize, security: u32, ladder: &[u8]) -> Option<usize>
    requires { (sound book.now ≡ true) × (n ≡ length (orders_of book.now)) × (length ladder.now ≡ ladder_bytes) }
    ensures { result ≡ then_some (same_numbers ladder.now (made_of security book.now)) (length (rows_of (orders_for security book.now))) }
{
    let mut keys = [0; 256];
    let mut spare = [0; 256];
    hold_in(book, n, security, &mut keys, &mut spare, ladder)
}
