// Which sides trade, at which prices, and which of two prices is better.
ghost use Rattle.std.specs.Prelude.{◌≡◌};
ghost use Rattle.orders.specs.Trading.{is_opposite, within_limit, is_priced_better};

use crate::order::Side;
use units::Price;

// Whether one side trades with the other.
pub fn is_opposite(a: Side, b: Side) -> bool
    ensures { result ≡ is_opposite a b }
{
    a != b
}

// Whether a taker of this side trades at the price.
pub fn within_limit(side: Side, limit: Price, price: Price) -> bool
    ensures { result ≡ within_limit side limit.0 price.0 }
{
    match side {
        Side::Buy => price <= limit,
        Side::Sell => limit <= price,
    }
}

// Whether p is a strictly better price than q for resting orders of this side.
pub fn is_priced_better(side: Side, p: Price, q: Price) -> bool
    ensures { result ≡ is_priced_better side p.0 q.0 }
{
    match side {
        Side::Buy => q < p,
        Side::Sell => p < q,
    }
}
