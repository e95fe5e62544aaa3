// What reduce decides, from the numbers that it is given and a book that it only reads.
ghost use Rattle.std.specs.Prelude.{◌≡◌, true, ◌&&◌, length};
ghost use Rattle.orders.specs.Order.{interest_of, settled, number_in_range, shares_in_range, security_in_range};
ghost use Rattle.book.specs.Sound.{sound, orders_of};
ghost use Rattle.book.specs.Answer.{numbered};
ghost use Rattle.entry.specs.Reduce.{reduction};
ghost use Rattle.entry.specs.Plan.{outcome_of, reduce_plan};

use book::records;
use book::refusal::Refusal;
use orders::order::Order;
use orders::range;
use units::Shares;

// The order that is left, with the place of its record; or the place of the record of an order that leaves.
#[derive(Clone, Copy)]
pub enum Reduction {
    Kept(usize, Order),
    Gone(usize),
}

// Whether the numbers are in their ranges.
pub fn in_range(security: u32, number: u32, shares: u32) -> bool
    ensures { result ≡ (security_in_range security && number_in_range number && shares_in_range shares) }
{
    range::security_in_range(security)
        & range::number_in_range(number)
        & range::shares_in_range(shares)
}

// The order without the shares.
fn reduced(order: Order, shares: Shares) -> Order
    ensures { result ≡ settled (reduction shares.0 (interest_of order)) order }
{
    let hidden = units::least(shares, order.non_displayed());
    let shown = units::difference(shares, hidden);
    order.settled(shown, hidden)
}

// What becomes of the order whose record lies here, as it is left.
fn outcome(start: usize, left: Order) -> Reduction
    ensures { result ≡ outcome_of start left }
{
    if left.rests() {
        Reduction::Kept(start, left)
    } else {
        Reduction::Gone(start)
    }
}

// What becomes of the security's order of this number, by a reduce that is checked: the numbers are in range, and the book is sound and n of its
// records are in use.
#[tactic(auto, using(crate::proofs::ReducePlan::too_much_refused))]
pub fn decide(
    book: &[u8],
    n: usize,
    security: u32,
    number: u32,
    shares: u32,
) -> Result<Reduction, Refusal>
    requires { ((security_in_range security && number_in_range number && shares_in_range shares) ≡ true) × (sound book.now ≡ true) × (n ≡ length (orders_of book.now)) }
    ensures { numbered result ≡ reduce_plan security number shares book.now }
{
    let start = lookup::locate_checked(book, n, security, number)?;
    let order = records::order_at(book, start);
    if !order.has(Shares(shares)) {
        return Err(Refusal::TooManyShares);
    }
    Ok(outcome(start, reduced(order, Shares(shares))))
}
