// The parts of a book's orders that an incoming order may trade with, in the order in which it meets them: by price, by paragraph, by time.
// A part is what of an order stands in one paragraph's group.
#![tactic(auto)]

mod best;
pub mod key;
pub mod visible;

ghost use Rattle.std.specs.Prelude.{◌≡◌, true, List, ◌++◌, ℕ, ◌+◌, ◌*◌, ◌≤◌, ◌<◌, length, get_or, take};
ghost use Rattle.orders.specs.declared.order.Kind.{Kind};
ghost use Rattle.orders.specs.declared.order.Order.{Order};
ghost use Rattle.orders.specs.Order.{kind_number, is_minimum_quantity};
ghost use Rattle.record.specs.Record.{numbers_of};
ghost use Rattle.record.specs.Names.{named_numbers};
ghost use Rattle.record.proofs.Orders.{OrderSound};
ghost use Rattle.book.specs.Sound.{sound, orders_of};
ghost use Rattle.parts.specs.Key.{key_of};
ghost use Rattle.parts.specs.Parts.{rank_on, paragraph_for, may_meet, keys_of, keys_from};
ghost use Rattle.parts.specs.Table.{visibility_of, Tells};
ghost use Rattle.parts.specs.Arranged.{Arranged};

use book::records;
use book::records::RECORD_BYTES;
use matching::Algorithm;
use matching::incoming::Incoming;
use orders::order::Side;
use record::order_record::Numbers;
use units::Shares;

// The rank of a price for a taker of this side: the better the price, the lower.
fn rank_on(side: Side, price: u32) -> u32
    ensures { result ≡ rank_on side price }
{
    match side {
        Side::Buy => price,
        Side::Sell => 4_294_967_295 - price,
    }
}

// The numbers of the paragraphs in whose groups orders stand: at twice the number of the kind, and one more for a size below a lot. The
// shown shares of a reserve order stand as those of a displayed order, and its hidden ones as those of a non-displayed one.
fn paragraph_numbers(algorithm: Algorithm) -> [u64; 10]
    ensures { ((k : ℕ) → get_or result k 0 < 8) × Tells algorithm result }
{
    match algorithm {
        Algorithm::PriceTime => [2, 2, 2, 2, 3, 3, 3, 3, 2, 2],
        Algorithm::ProRata => [2, 2, 2, 3, 4, 6, 5, 5, 2, 3],
        Algorithm::PriceSetter => [2, 2, 2, 3, 4, 6, 5, 5, 2, 3],
    }
}

// In whose groups parts stand: the numbers of the paragraphs, and the lot that they turn on.
#[derive(Clone, Copy)]
struct Groups {
    numbers: [u64; 10],
    lot: Shares,
    ghost few: { (k : ℕ) → get_or numbers k 0 < 8 },
}

// The part of an order of this kind's number and this price whose size is so many shares.
fn part_of(kind: u32, shares: Shares, price: u32, place: usize, side: Side, groups: &Groups) -> u64
    requires { (kind ≤ 4) × (shares.0 ≤ 999999) × (place < 512) }
    ensures { (k : Kind) (alg : Algorithm) → kind ≡ kind_number k → Tells alg groups.now.numbers
        → result ≡ key_of (rank_on side price) (paragraph_for groups.now.lot.0 alg (visibility_of k) (is_minimum_quantity k) shares.0) place shares.0 }
{
    let column = 2 * (kind as usize) + usize::from(shares.0 < groups.lot.0);
    key::key_of(rank_on(side, price), groups.numbers[column], place, shares)
}

// Whether an incoming order of this side may trade with the order of a record's numbers, and has the shares for its minimum.
fn may_meet(numbers: Numbers, incoming: Incoming) -> bool
    ensures { (o : Order) → OrderSound o → numbers ≡ named_numbers (numbers_of o) → result ≡ may_meet incoming o }
{
    let taker = incoming.taker;
    let side = taker.side;
    let limit = taker.limit;
    let size = incoming.size;
    let other = 3 - u32::from(u8::from(side));
    (numbers.security == taker.security)
        & (numbers.side == other)
        & (rank_on(side, numbers.price) <= rank_on(side, limit.0))
        & (numbers.minimum <= size.0)
}

// The parts of an order, by the numbers of its record, go behind the first keys if the incoming order may trade with it. Gives the number
// of keys that there are then.
fn write_parts(
    numbers: Numbers,
    place: usize,
    incoming: Incoming,
    groups: &Groups,
    keys: &mut [u64],
    count: usize,
) -> usize
    requires { (place < 512)
        × ((o : Order) × OrderSound o × (numbers ≡ named_numbers (numbers_of o)))
        × (count + 2 ≤ length keys.old) }
    ensures { (length keys.new ≡ length keys.old)
        × (result ≤ count + 2)
        × ((o : Order) (alg : Algorithm) (others : List ℕ) → OrderSound o → numbers ≡ named_numbers (numbers_of o) → Tells alg groups.now.numbers
        → take result keys.new ++ others ≡ take count keys.old ++ keys_of groups.now.lot.0 alg incoming place o others) }
{
    let taker = incoming.taker;
    let side = taker.side;
    let price = numbers.price;
    let met = usize::from(may_meet(numbers, incoming));
    keys[count] = part_of(
        numbers.kind,
        Shares(numbers.size),
        price,
        place,
        side,
        groups,
    );
    let next = count + met;
    if numbers.hidden == 0 {
        return next;
    }
    keys[next] = part_of(2, Shares(numbers.hidden), price, place, side, groups);
    next + met
}

// The parts of those that the incoming order may trade with, in the order of their records. Gives their number.
fn collect(
    book: &[u8],
    n: usize,
    incoming: Incoming,
    algorithm: Algorithm,
    lot: Shares,
    keys: &mut [u64],
) -> usize
    requires { (sound book.now ≡ true) × (n ≡ length (orders_of book.now)) × (2 * n ≤ length keys.old) }
    ensures { (result ≤ 2 * n) × (take result keys.new ≡ keys_from lot.0 algorithm incoming 0 (orders_of book.now)) }
{
    let groups = Groups {
        numbers: paragraph_numbers(algorithm),
        lot,
    };
    let mut count = 0;
    for i in 0..n {
        let numbers = records::numbers_at(book, RECORD_BYTES * i);
        count = write_parts(numbers, i, incoming, &groups, keys, count);
    }
    count
}

// The parts that the incoming order needs, in the order in which it meets them, at the front of the keys. Gives their number. The spare
// keys are lent, and anything.
pub fn arrange(
    book: &[u8],
    n: usize,
    incoming: Incoming,
    algorithm: Algorithm,
    lot: Shares,
    keys: &mut [u64],
    spare: &mut [u64],
) -> usize
    requires { (sound book.now ≡ true)
        × (n ≡ length (orders_of book.now))
        × (2 * n ≤ length keys.old)
        × (2 * n ≤ length spare.old) }
    ensures { (result ≤ 2 * n) × Arranged lot.0 algorithm incoming (orders_of book.now) (take result keys.new) }
{
    let all = collect(book, n, incoming, algorithm, lot, keys);
    if ordering::rises(&keys[..all]) {
        return all;
    }
    let needed = best::narrow(&mut keys[..all], algorithm, incoming.size);
    ordering::sort(&mut keys[..needed], spare);
    needed
}
