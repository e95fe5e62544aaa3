// The call take. It decides first, from a book that it only reads and into memory of its own, and then writes what was decided.
#![tactic(auto)]

ghost use Rattle.std.specs.Prelude.{◌≡◌, true, ◌*◌, ◌≤◌};
ghost use Rattle.book.specs.Sound.{sound};
ghost use Rattle.book.specs.Answer.{number_in};
ghost use Rattle.matching.specs.Answer.{taken};
ghost use Rattle.matching.specs.TakeCall.{request_in_range, incoming_of, take_call};
ghost use Rattle.matching.specs.Fairness.{FairTake};
ghost use Rattle.take.specs.Answers.{Answers};
ghost use Rattle.take.specs.Memory.{Sound, Memory};

use book::refusal::Refusal;
use matching::incoming::Incoming;
use matching::{Algorithm, Filled, TakeRequest};
use orders::order::{Side, Taker};
use orders::range;
use units::{Price, Shares};

// Whether the numbers are in their ranges.
pub fn in_range(q: TakeRequest) -> bool
    ensures { result ≡ request_in_range q }
{
    units::in_range(1, 2, q.side)
        & range::price_in_range(q.limit)
        & range::shares_in_range(q.size)
        & units::in_range(1, 3, q.algorithm)
        & range::security_in_range(q.security)
}

// The incoming order that they say.
fn incoming_of(q: TakeRequest) -> Incoming
    ensures { result ≡ incoming_of q }
{
    let taker = Taker {
        side: Side::from(q.side),
        limit: Price(q.limit),
        security: q.security,
    };
    Incoming {
        taker,
        size: Shares(q.size),
    }
}

// An accepted take in memory that is lent: decided first, from a book that is only read, then written. Keys, spare and columns may hold
// anything; the allotments, of displayed and of other shares, say of each record that it has got nothing yet.
fn take_in(
    book: &mut [u8],
    executions: &mut [u8],
    n: usize,
    request: TakeRequest,
    keys: &mut [u64],
    spare: &mut [u64],
    sizes: &mut [u32],
    minimums: &mut [u32],
    gets: &mut [u32],
    shown: &mut [u32],
    hidden: &mut [u32],
) -> Result<Filled, Refusal>
    requires { Sound request book.old n × Memory n keys.old spare.old sizes.old minimums.old gets.old shown.old hidden.old }
    ensures { Answers request book.old executions.old (taken result) book.new executions.new }
{
    let incoming = incoming_of(request);
    let algorithm = Algorithm::from(request.algorithm);
    let lot = units::round_lot();
    let parts = parts::arrange(book, n, incoming, algorithm, lot, keys, spare);
    if parts == 0 {
        return Ok(Filled {
            count: 0,
            left: incoming.size,
        });
    }
    let reached = allocation::allocate(
        book,
        &keys[..parts],
        incoming,
        algorithm,
        lot,
        sizes,
        minimums,
        gets,
        spare,
        shown,
        hidden,
    );
    let order = reached.incoming;
    settlement::commit(
        book,
        executions,
        n,
        &spare[..reached.count],
        shown,
        hidden,
        order.size,
    )
}

// The same with memory for so many orders, two keys for each.
fn take_with<const ORDERS: usize, const KEYS: usize>(
    book: &mut [u8],
    executions: &mut [u8],
    n: usize,
    request: TakeRequest,
) -> Result<Filled, Refusal>
    requires { Sound request book.old n × (n ≤ ORDERS) × (ORDERS ≤ 256) × (KEYS ≡ 2 * ORDERS) }
    ensures { Answers request book.old executions.old (taken result) book.new executions.new }
{
    let mut keys = [0; KEYS];
    let mut spare = [0; KEYS];
    let mut sizes = [0; ORDERS];
    let mut minimums = [0; ORDERS];
    let mut gets = [0; ORDERS];
    let mut shown = [0; ORDERS];
    let mut hidden = [0; ORDERS];
    take_in(
        book,
        executions,
        n,
        request,
        &mut keys,
        &mut spare,
        &mut sizes,
        &mut minimums,
        &mut gets,
        &mut shown,
        &mut hidden,
    )
}

// A take that is checked: its numbers are in range, and the book is sound and n of its records are in use. It can only be refused for want
// of room for its executions. A book of a few orders has less memory: to clear that for all would cost more than the take.
pub fn take_checked(
    book: &mut [u8],
    executions: &mut [u8],
    n: usize,
    request: TakeRequest,
) -> Result<Filled, Refusal>
    requires { Sound request book.old n }
    ensures { Answers request book.old executions.old (taken result) book.new executions.new }
{
    if n <= 32 {
        take_with::<32, 64>(book, executions, n, request)
    } else {
        take_with::<256, 512>(book, executions, n, request)
    }
}

// An incoming order takes shares from the orders of the book. Its executions go into the second buffer, from its start. The numbers may
// have any value.
pub fn take(book: &mut [u8], executions: &mut [u8], request: TakeRequest) -> Result<Filled, Refusal>
    ensures taken { taken result ≡ (take_call request book.old executions.old).taken }
    ensures book_bytes { book.new ≡ (take_call request book.old executions.old).book }
    ensures execution_bytes { executions.new ≡ (take_call request book.old executions.old).executions }
    ensures fair { FairTake request book.old (record { taken = taken result; book = book.new; executions = executions.new }) }
    ensures kept_sound { number_in result ≡ 0 → sound book.new ≡ true }
{
    if !in_range(request) {
        return Err(Refusal::OutOfRange);
    }
    let n = lookup::occupancy(book)?;
    take_checked(book, executions, n, request)
}
