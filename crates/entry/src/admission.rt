// What add decides, from the numbers that it is given and a book that it only reads.
ghost use Rattle.std.specs.Prelude.{◌≡◌, true, List, ℕ, ◌*◌, ◌≤◌, leb, length};
ghost use Rattle.orders.specs.Order.{interest_of, all_shares};
ghost use Rattle.record.specs.Record.{order_of};
ghost use Rattle.record.specs.Names.{named_numbers};
ghost use Rattle.book.specs.Sound.{sound, orders_of, first_orders};
ghost use Rattle.book.specs.Answer.{numbered};
ghost use Rattle.entry.specs.Add.{request_in_range, requested, beats, could_trade};
ghost use Rattle.entry.specs.Plan.{standing_of, add_plan};

use book::records;
use book::records::RECORD_BYTES;
use book::refusal::Refusal;
use orders::order::{Kind, Order, Side};
use orders::{range, trading};
use record::order_record;
use record::order_record::Numbers;
use units::{Price, Shares};

// The numbers that add is given. The size of a reserve order is the shares that it shows.
#[repr(C)]
#[derive(Clone, Copy)]
pub struct AddRequest {
    pub side: u32,
    pub kind: u32,
    pub number: u32,
    pub price: u32,
    pub size: u32,
    pub minimum: u32,
    pub hidden: u32,
    pub refresh: u32,
    pub security: u32,
}

// How a new order stands to those of the book: whether its number is not above all of theirs, whether it could trade with one of them,
// and whether it beats each.
#[derive(Clone, Copy)]
pub struct Standing {
    pub stale: bool,
    pub trades: bool,
    pub beats: bool,
}

// Whether the numbers are in their ranges. A reserve order comes in with as many shares shown as its refresh size.
pub fn in_range(q: AddRequest) -> bool
    ensures { result ≡ request_in_range q }
{
    units::in_range(1, 2, q.side)
        & units::in_range(1, 4, q.kind)
        & range::number_in_range(q.number)
        & range::price_in_range(q.price)
        & range::shares_in_range(q.size)
        & range::minimum_in_range(q.kind, q.size, q.minimum)
        & range::reserve_in_range(q.kind, q.hidden, q.refresh)
        & (!(q.kind == 4) | (q.refresh == q.size))
        & range::security_in_range(q.security)
}

// The order that is asked for, with or without the setter mark.
fn requested(q: AddRequest, setter: bool) -> Order
    ensures { result ≡ requested q setter }
{
    Order {
        side: Side::from(q.side),
        kind: Kind::of(q.kind, q.minimum, q.hidden, q.refresh),
        number: q.number,
        price: Price(q.price),
        size: Shares(q.size),
        setter,
        security: q.security,
    }
}

// Whether the resting order of a record's numbers, of whichever security, keeps its number from the new one.
fn is_later(new: Order, resting: Numbers) -> bool
    ensures { result ≡ leb new.number resting.number }
{
    new.number <= resting.number
}

// Whether the new order, of so many shares, shown and hidden, could trade with the resting one of a record's numbers: that is of its
// security, on the other side within its price, with no minimum above these shares.
fn could_trade(new: Order, shares: Shares, resting: Numbers) -> bool
    ensures { (ns : List ℕ) → resting ≡ named_numbers ns → shares.0 ≡ all_shares (interest_of new) → result ≡ could_trade new (order_of ns) }
{
    let side = new.side;
    let limit = new.price;
    (resting.security == new.security)
        & trading::is_opposite(side, Side::from(resting.side))
        & trading::within_limit(side, limit, Price(resting.price))
        & (!(resting.kind == 3) | (resting.minimum <= shares.0))
}

// Whether the resting order of a record's numbers keeps no setter mark from the new one: it is of the other security, or no displayed order
// of its side, or the new one's price is better.
fn beats(new: Order, resting: Numbers) -> bool
    ensures { (ns : List ℕ) → resting ≡ named_numbers ns → result ≡ beats new (order_of ns) }
{
    let side = new.side;
    let price = new.price;
    !(resting.security == new.security)
        | trading::is_opposite(side, Side::from(resting.side))
        | !Kind::is_displayed(resting.kind)
        | trading::is_priced_better(side, price, Price(resting.price))
}

// How the new order, of so many shares, shown and hidden, stands to the first n orders of the book.
fn standing_in(book: &[u8], n: usize, new: Order, shares: Shares) -> Standing
    requires { (40 * n ≤ length book.now) × (shares.0 ≡ all_shares (interest_of new)) }
    ensures { result ≡ standing_of new (first_orders n book.now) }
{
    let mut stale = false;
    let mut trades = false;
    let mut best = true;
    for rec in records::first(book, n) {
        let resting = order_record::numbers_of(rec);
        stale = stale | is_later(new, resting);
        trades = trades | could_trade(new, shares, resting);
        best = best & beats(new, resting);
    }
    Standing {
        stale,
        trades,
        beats: best,
    }
}

// The order to be put last and where its record goes, of an add that is checked: the numbers are in range, and the book is sound and n of its
// records are in use.
pub fn decide(book: &[u8], n: usize, request: AddRequest) -> Result<(usize, Order), Refusal>
    requires { (request_in_range request ≡ true) × (sound book.now ≡ true) × (n ≡ length (orders_of book.now)) }
    ensures { numbered result ≡ add_plan request book.now }
{
    let new = requested(request, false);
    let shares = request.size + request.hidden;
    let Standing {
        stale,
        trades,
        beats,
    } = standing_in(book, n, new, Shares(shares));
    if stale {
        return Err(Refusal::StaleNumber);
    }
    if trades {
        return Err(Refusal::CouldTrade);
    }
    if book.len() / RECORD_BYTES <= n {
        return Err(Refusal::BookFull);
    }
    let lot = units::round_lot();
    let setter = Kind::is_displayed(request.kind) & (lot <= new.displayed()) & beats;
    Ok((RECORD_BYTES * n, requested(request, setter)))
}
