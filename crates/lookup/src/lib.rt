// The calls that only read a book: check and find.
#![tactic(auto)]

mod place;
mod setters;
mod sound;

ghost use Rattle.std.specs.Prelude.{◌≡◌, true, false, ◌&&◌, ◌+◌, ◌≤◌, MatchResult, length};
ghost use Rattle.orders.specs.Order.{number_in_range, security_in_range};
ghost use Rattle.book.specs.Sound.{sound, orders_of};
ghost use Rattle.book.specs.Answer.{checked, found};
ghost use Rattle.book.specs.declared.refusal.Refusal.TheVariants.{UnsoundBook};
ghost use Rattle.book.specs.Lookup.{check_call, find_call, found_part};

use book::Found;
use book::records::RECORD_BYTES;
use book::refusal::Refusal;
use orders::range;

// How many of a sound book's records are in use, by orders of whichever security.
pub fn occupancy(book: &[u8]) -> Result<usize, Refusal>
    ensures { MatchResult result (λ n. (sound book.now ≡ true) × (n ≡ length (orders_of book.now)))
        (λ r. (sound book.now ≡ false) × (r ≡ UnsoundBook)) }
{
    if !sound::has_whole_records(book.len()) {
        return Err(Refusal::UnsoundBook);
    }
    let n = sound::count_occupied(book);
    if sound::is_sound(book, n) {
        Ok(n)
    } else {
        Err(Refusal::UnsoundBook)
    }
}

// How many of a book's records are in use.
pub fn occupied(book: &[u8]) -> usize
    ensures { result ≡ length (orders_of book.now) }
{
    sound::count_occupied(book)
}

// How many orders of the security a sound book has. The number may have any value.
pub fn check(book: &[u8], security: u32) -> Result<u32, Refusal>
    ensures { checked result ≡ check_call security book.now }
{
    if !range::security_in_range(security) {
        return Err(Refusal::OutOfRange);
    }
    Ok(place::count_of(book, occupancy(book)?, security))
}

// Where the record of the security's order of this number begins, for a find that is checked: its numbers are in range, and the book is sound
// and n of its records are in use.
pub fn locate_checked(book: &[u8], n: usize, security: u32, number: u32) -> Result<usize, Refusal>
    requires { ((security_in_range security && number_in_range number) ≡ true) × (sound book.now ≡ true) × (n ≡ length (orders_of book.now)) }
    ensures answer { found result ≡ find_call security number book.now }
    ensures within { (found result).start + (found result).length ≤ length book.now }
{
    let place = place::place_of(book, n, security, number);
    if place == n {
        return Err(Refusal::UnknownNumber);
    }
    Ok(RECORD_BYTES * place)
}

// Whether the numbers are in their ranges.
fn in_range(security: u32, number: u32) -> bool
    ensures { result ≡ (security_in_range security && number_in_range number) }
{
    range::security_in_range(security) & range::number_in_range(number)
}

// Where the record of the security's order of this number begins. The numbers may have any value.
pub fn locate(book: &[u8], security: u32, number: u32) -> Result<usize, Refusal>
    ensures answer { found result ≡ find_call security number book.now }
    ensures within { (found result).start + (found result).length ≤ length book.now }
{
    if in_range(security, number) {
        locate_checked(book, occupancy(book)?, security, number)
    } else {
        Err(Refusal::OutOfRange)
    }
}

// The order's own 40 bytes of the lent book, not a copy; empty where it is refused. The scope names this form: a part, and no Result of one.
pub fn find<'a>(book: &'a [u8], security: u32, number: u32, refusal: &mut u32) -> &'a [u8]
    ensures refused { refusal.new ≡ (find_call security number book.now).refusal }
    ensures part { result.now ≡ found_part (find_call security number book.now) book.now }
    ensures own { result.ref_ptr ≡ (book.entry.ref_ptr.0, (find_call security number book.now).start + book.entry.ref_ptr.1) }
{
    let found = Found::from(locate(book, security, number));
    *refusal = found.refusal;
    let start = found.start;
    let end = start + found.length;
    &book[start..end]
}
