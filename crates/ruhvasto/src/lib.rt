// The calls under the names and in the shapes that C has (include/ruhvasto.h), and the version of that interface.
#![tactic(auto)]

ghost use Rattle.std.specs.Prelude.{◌≡◌, true, ◌+◌, ◌≤◌, length};
ghost use Rattle.book.specs.Lookup.{orders_for, check_call, find_call};
ghost use Rattle.record.specs.Record.{new_form, old_form};
ghost use Rattle.book.specs.Sound.{sound, sound_in, orders_in};
ghost use Rattle.entry.specs.Add.{add_call};
ghost use Rattle.entry.specs.Reduce.{reduce_call};
ghost use Rattle.matching.specs.TakeCall.{take_call};
ghost use Rattle.matching.specs.Fairness.{FairTake};
ghost use Rattle.ladder.specs.Ladder.{made_of, ladder_call, add_ladder_call, reduce_ladder_call, take_ladder_call};
ghost use Rattle.ladder.specs.Rows.{rows_of};
ghost use Rattle.ladder.specs.Depth.{Tells};
ghost use Rattle.conversion.specs.Conversion.{to_new_call, to_old_call};

use book::refusal::number_in;
use book::{Checked, Found};
use entry::admission::AddRequest;
use matching::{TakeRequest, Taken};

// The version of the interface, as the header's RUHVASTO_VERSION.
pub fn ruhvasto_version() -> u32
    ensures { result ≡ 8 }
{
    8
}

// Whether the book is sound, and how many orders of the security it has.
pub fn ruhvasto_check(book: &[u8], security: u32) -> Checked
    ensures { result ≡ check_call security book.now }
{
    lookup::check(book, security).into()
}

// Where in the book the security's order of this number lies. A reference can't be returned to C.
pub fn ruhvasto_find(book: &[u8], security: u32, number: u32) -> Found
    ensures answer { result ≡ find_call security number book.now }
    ensures within { result.start + result.length ≤ length book.now }
{
    lookup::locate(book, security, number).into()
}

// An order is put last in the book.
pub fn ruhvasto_add(book: &mut [u8], request: AddRequest) -> u32
    ensures refused { result ≡ (add_call request book.old).refusal }
    ensures bytes { book.new ≡ (add_call request book.old).book }
    ensures kept_sound { result ≡ 0 → sound book.new ≡ true }
{
    number_in(entry::add(book, request))
}

// The security's order of this number loses shares; without any it leaves the book.
pub fn ruhvasto_reduce(book: &mut [u8], security: u32, number: u32, shares: u32) -> u32
    ensures refused { result ≡ (reduce_call security number shares book.old).refusal }
    ensures bytes { book.new ≡ (reduce_call security number shares book.old).book }
    ensures kept_sound { result ≡ 0 → sound book.new ≡ true }
{
    number_in(entry::reduce(book, security, number, shares))
}

// An incoming order takes shares from the orders of the book. Its executions go into the second buffer, from its start.
pub fn ruhvasto_take(book: &mut [u8], executions: &mut [u8], request: TakeRequest) -> Taken
    ensures taken { result ≡ (take_call request book.old executions.old).taken }
    ensures book_bytes { book.new ≡ (take_call request book.old executions.old).book }
    ensures execution_bytes { executions.new ≡ (take_call request book.old executions.old).executions }
    ensures fair { FairTake request book.old (record { taken = result; book = book.new; executions = executions.new }) }
    ensures kept_sound { result.refusal ≡ 0 → sound book.new ≡ true }
{
    take::take(book, executions, request).into()
}

// The ladder of the security in the book, all its bytes, whatever stood there.
pub fn ruhvasto_ladder(book: &[u8], ladder: &mut [u8], security: u32) -> u32
    ensures refused { result ≡ (ladder_call security book.now ladder.old).refusal }
    ensures ladder_bytes { ladder.new ≡ (ladder_call security book.now ladder.old).ladder }
    ensures tells { result ≡ 0 → Tells (orders_for security book.now) ladder.new (rows_of (orders_for security book.now)) }
{
    number_in(ladder::ladder(book, ladder, security))
}

// An order is put last in the book, and the ladder is kept.
pub fn ruhvasto_add_ladder(book: &mut [u8], ladder: &mut [u8], request: AddRequest) -> u32
    ensures refused { result ≡ (add_ladder_call request book.old ladder.old).refusal }
    ensures bytes { book.new ≡ (add_ladder_call request book.old ladder.old).book }
    ensures ladder_bytes { ladder.new ≡ (add_ladder_call request book.old ladder.old).ladder }
    ensures kept_sound { result ≡ 0 → sound book.new ≡ true }
    ensures kept_ladder { result ≡ 0 → ladder.new ≡ made_of request.security book.new }
    ensures unchanged { (result ≡ 0 → ⊥) → (book.new ≡ book.old) × (ladder.new ≡ ladder.old) }
    ensures as_plain { ladder.old ≡ made_of request.security book.old
        → (result ≡ (add_call request book.old).refusal) × (book.new ≡ (add_call request book.old).book) }
{
    number_in(ladder::add(book, ladder, request))
}

// The security's order of this number loses shares, and the ladder is kept.
pub fn ruhvasto_reduce_ladder(
    book: &mut [u8],
    ladder: &mut [u8],
    security: u32,
    number: u32,
    shares: u32,
) -> u32
    ensures refused { result ≡ (reduce_ladder_call security number shares book.old ladder.old).refusal }
    ensures bytes { book.new ≡ (reduce_ladder_call security number shares book.old ladder.old).book }
    ensures ladder_bytes { ladder.new ≡ (reduce_ladder_call security number shares book.old ladder.old).ladder }
    ensures kept_sound { result ≡ 0 → sound book.new ≡ true }
    ensures kept_ladder { result ≡ 0 → ladder.new ≡ made_of security book.new }
    ensures unchanged { (result ≡ 0 → ⊥) → (book.new ≡ book.old) × (ladder.new ≡ ladder.old) }
    ensures as_plain { ladder.old ≡ made_of security book.old
        → (result ≡ (reduce_call security number shares book.old).refusal) × (book.new ≡ (reduce_call security number shares book.old).book) }
{
    number_in(ladder::reduce(book, ladder, security, number, shares))
}

// An incoming order takes shares from the orders of the book, and the ladder is kept.
pub fn ruhvasto_take_ladder(
    book: &mut [u8],
    executions: &mut [u8],
    ladder: &mut [u8],
    request: TakeRequest,
) -> Taken
    ensures taken { result ≡ (take_ladder_call request book.old executions.old ladder.old).taken }
    ensures book_bytes { book.new ≡ (take_ladder_call request book.old executions.old ladder.old).book }
    ensures execution_bytes { executions.new ≡ (take_ladder_call request book.old executions.old ladder.old).executions }
    ensures ladder_bytes { ladder.new ≡ (take_ladder_call request book.old executions.old ladder.old).ladder }
    ensures fair { FairTake request book.old (record { taken = result; book = book.new; executions = executions.new }) }
    ensures kept_sound { result.refusal ≡ 0 → sound book.new ≡ true }
    ensures kept_ladder { result.refusal ≡ 0 → ladder.new ≡ made_of request.security book.new }
    ensures unchanged { (result.refusal ≡ 0 → ⊥)
        → (book.new ≡ book.old) × (executions.new ≡ executions.old) × (ladder.new ≡ ladder.old) }
    ensures as_plain { ladder.old ≡ made_of request.security book.old
        → (result ≡ (take_call request book.old executions.old).taken)
        × (book.new ≡ (take_call request book.old executions.old).book)
        × (executions.new ≡ (take_call request book.old executions.old).executions) }
{
    ladder::take(book, executions, ladder, request).into()
}

// An old book goes to the target in the new form.
pub fn ruhvasto_to_new(old: &[u8], target: &mut [u8]) -> u32
    ensures refused { result ≡ (to_new_call old.now target.old).refusal }
    ensures bytes { target.new ≡ (to_new_call old.now target.old).book }
    ensures made_sound { result ≡ 0 → sound_in new_form target.new ≡ true }
    ensures same_orders { result ≡ 0 → orders_in new_form target.new ≡ orders_in old_form old.now }
{
    number_in(conversion::to_new(old, target))
}

// A book goes to the target in the old form.
pub fn ruhvasto_to_old(book: &[u8], target: &mut [u8]) -> u32
    ensures refused { result ≡ (to_old_call book.now target.old).refusal }
    ensures bytes { target.new ≡ (to_old_call book.now target.old).book }
    ensures made_sound { result ≡ 0 → sound_in old_form target.new ≡ true }
    ensures same_orders { result ≡ 0 → orders_in old_form target.new ≡ orders_in new_form book.now }
{
    number_in(conversion::to_old(book, target))
}
