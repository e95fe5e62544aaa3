// The depth ladder: totals for each side and price of a security, kept beside a book. The call that makes one, and the forms of add, reduce
// and take that keep it: each makes the decisions of the plain call, after it saw that the ladder is the book's.
#![tactic(auto)]

mod row;
mod rows;

ghost use Rattle.std.specs.Prelude.{◌≡◌, true, ◌-◌, ◌*◌, ◌≤◌, length, drop, replicate};
ghost use Rattle.book.specs.Sound.{sound};
ghost use Rattle.book.specs.Lookup.{orders_for};
ghost use Rattle.book.specs.Answer.{number_in};
ghost use Rattle.entry.specs.Add.{add_call};
ghost use Rattle.entry.specs.Reduce.{reduce_call};
ghost use Rattle.matching.specs.Answer.{taken};
ghost use Rattle.matching.specs.TakeCall.{take_call};
ghost use Rattle.matching.specs.Fairness.{FairTake};
ghost use Rattle.ladder.specs.Ladder.{ladder_bytes, made_of, ladder_call};
ghost use Rattle.ladder.specs.Seen.{look, seen_of};
ghost use Rattle.ladder.specs.Ladder.{add_ladder_call, reduce_ladder_call, take_ladder_call};
ghost use Rattle.ladder.specs.Rows.{rows_of};
ghost use Rattle.ladder.specs.Depth.{Tells};

use book::refusal::Refusal;
use entry::admission::AddRequest;
use entry::{admission, reduction};
use matching::{Filled, TakeRequest};
use orders::range;
use rows::{LADDER_BYTES, LADDER_ROWS};

// The ladder of the security in the book, all its bytes, whatever stood there. The number may have any value.
pub fn ladder(book: &[u8], ladder: &mut [u8], security: u32) -> Result<(), Refusal>
    ensures refused { number_in result ≡ (ladder_call security book.now ladder.old).refusal }
    ensures ladder_bytes { ladder.new ≡ (ladder_call security book.now ladder.old).ladder }
    ensures tells { number_in result ≡ 0 → Tells (orders_for security book.now) ladder.new (rows_of (orders_for security book.now)) }
{
    if !range::security_in_range(security) {
        return Err(Refusal::OutOfRange);
    }
    let n = lookup::occupancy(book)?;
    if ladder.len() == LADDER_BYTES {
        rows::renew(book, n, security, ladder, LADDER_ROWS);
        Ok(())
    } else {
        Err(Refusal::LadderLength)
    }
}

// What the forms see of a sound book and its ladder before they decide: the number of records in use, and that of the security's rows.
#[derive(Clone, Copy)]
struct Seen {
    records: usize,
    rows: usize,
}

fn see(book: &[u8], security: u32, ladder: &[u8]) -> Result<Seen, Refusal>
    ensures { look result ≡ seen_of security book.now ladder.now }
{
    let records = lookup::occupancy(book)?;
    if ladder.len() != LADDER_BYTES {
        return Err(Refusal::LadderLength);
    }
    let Some(rows) = rows::hold(book, records, security, ladder) else {
        return Err(Refusal::OtherLadder);
    };
    Ok(Seen { records, rows })
}

// An accepted call for the security left the book so: its ladder takes the place of the one before, of so many rows.
fn keep(book: &[u8], security: u32, ladder: &mut [u8], rows: usize)
    requires { (sound book.now ≡ true)
        × (length ladder.old ≡ ladder_bytes)
        × (rows ≤ 256)
        × (drop (24 * rows) ladder.old ≡ replicate (24 * (256 - rows)) 0) }
    ensures { ladder.new ≡ made_of security book.now }
{
    rows::renew(book, lookup::occupied(book), security, ladder, rows);
}

// Add, with the ladder kept.
pub fn add(book: &mut [u8], ladder: &mut [u8], request: AddRequest) -> Result<(), Refusal>
    ensures refused { number_in result ≡ (add_ladder_call request book.old ladder.old).refusal }
    ensures bytes { book.new ≡ (add_ladder_call request book.old ladder.old).book }
    ensures ladder_bytes { ladder.new ≡ (add_ladder_call request book.old ladder.old).ladder }
    ensures kept_sound { number_in result ≡ 0 → sound book.new ≡ true }
    ensures kept_ladder { number_in result ≡ 0 → ladder.new ≡ made_of request.security book.new }
    ensures unchanged { (number_in result ≡ 0 → ⊥) → (book.new ≡ book.old) × (ladder.new ≡ ladder.old) }
    ensures as_plain { ladder.old ≡ made_of request.security book.old
        → (number_in result ≡ (add_call request book.old).refusal) × (book.new ≡ (add_call request book.old).book) }
{
    if !admission::in_range(request) {
        return Err(Refusal::OutOfRange);
    }
    let seen = see(book, request.security, ladder)?;
    entry::add_checked(book, seen.records, request)?;
    keep(book, request.security, ladder, seen.rows);
    Ok(())
}

// Reduce, with the ladder kept.
pub fn reduce(
    book: &mut [u8],
    ladder: &mut [u8],
    security: u32,
    number: u32,
    shares: u32,
) -> Result<(), Refusal>
    ensures refused { number_in result ≡ (reduce_ladder_call security number shares book.old ladder.old).refusal }
    ensures bytes { book.new ≡ (reduce_ladder_call security number shares book.old ladder.old).book }
    ensures ladder_bytes { ladder.new ≡ (reduce_ladder_call security number shares book.old ladder.old).ladder }
    ensures kept_sound { number_in result ≡ 0 → sound book.new ≡ true }
    ensures kept_ladder { number_in result ≡ 0 → ladder.new ≡ made_of security book.new }
    ensures unchanged { (number_in result ≡ 0 → ⊥) → (book.new ≡ book.old) × (ladder.new ≡ ladder.old) }
    ensures as_plain { ladder.old ≡ made_of security book.old
        → (number_in result ≡ (reduce_call security number shares book.old).refusal) × (book.new ≡ (reduce_call security number shares book.old).book) }
{
    if !reduction::in_range(security, number, shares) {
        return Err(Refusal::OutOfRange);
    }
    let seen = see(book, security, ladder)?;
    entry::reduce_checked(book, seen.records, security, number, shares)?;
    keep(book, security, ladder, seen.rows);
    Ok(())
}

// Take, with the ladder kept.
pub fn take(
    book: &mut [u8],
    executions: &mut [u8],
    ladder: &mut [u8],
    request: TakeRequest,
) -> Result<Filled, Refusal>
    ensures taken { taken result ≡ (take_ladder_call request book.old executions.old ladder.old).taken }
    ensures book_bytes { book.new ≡ (take_ladder_call request book.old executions.old ladder.old).book }
    ensures execution_bytes { executions.new ≡ (take_ladder_call request book.old executions.old ladder.old).executions }
    ensures ladder_bytes { ladder.new ≡ (take_ladder_call request book.old executions.old ladder.old).ladder }
    ensures fair { FairTake request book.old (record { taken = taken result; book = book.new; executions = executions.new }) }
    ensures kept_sound { number_in result ≡ 0 → sound book.new ≡ true }
    ensures kept_ladder { number_in result ≡ 0 → ladder.new ≡ made_of request.security book.new }
    ensures unchanged { (number_in result ≡ 0 → ⊥)
        → (book.new ≡ book.old) × (executions.new ≡ executions.old) × (ladder.new ≡ ladder.old) }
    ensures as_plain { ladder.old ≡ made_of request.security book.old
        → (taken result ≡ (take_call request book.old executions.old).taken)
        × (book.new ≡ (take_call request book.old executions.old).book)
        × (executions.new ≡ (take_call request book.old executions.old).executions) }
{
    if !take::in_range(request) {
        return Err(Refusal::OutOfRange);
    }
    let seen = see(book, request.security, ladder)?;
    let filled = take::take_checked(book, executions, seen.records, request)?;
    keep(book, request.security, ladder, seen.rows);
    Ok(filled)
}
