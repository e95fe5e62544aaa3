// The ranges of an order's numbers.
ghost use Rattle.std.specs.Prelude.{◌≡◌};
ghost use Rattle.orders.specs.Order.{number_in_range, price_in_range, shares_in_range, security_in_range, minimum_in_range, reserve_in_range};

// Whether an order can have this number.
pub fn number_in_range(number: u32) -> bool
    ensures { result ≡ number_in_range number }
{
    units::in_range(1, u32::MAX, number)
}

// Whether it can have this price.
pub fn price_in_range(price: u32) -> bool
    ensures { result ≡ price_in_range price }
{
    units::in_range(1, 2_000_000_000, price)
}

// Whether it can have so many shares.
pub fn shares_in_range(shares: u32) -> bool
    ensures { result ≡ shares_in_range shares }
{
    units::in_range(1, 999_999, shares)
}

// Whether there is a security of this number.
pub fn security_in_range(security: u32) -> bool
    ensures { result ≡ security_in_range security }
{
    units::in_range(0, 1, security)
}

// Whether a minimum is in its range: 1 to the size for kind 3, zero for every other kind.
pub fn minimum_in_range(kind: u32, size: u32, minimum: u32) -> bool
    ensures { result ≡ minimum_in_range kind size minimum }
{
    if kind == 3 {
        units::in_range(1, size, minimum)
    } else {
        minimum == 0
    }
}

// Whether hidden shares and a refresh size are in their ranges: 0 to 999,999 and 1 to 999,999 for kind 4, both zero for every other kind.
pub fn reserve_in_range(kind: u32, hidden: u32, refresh: u32) -> bool
    ensures { result ≡ reserve_in_range kind hidden refresh }
{
    if kind == 4 {
        (hidden <= 999_999) & shares_in_range(refresh)
    } else {
        (hidden == 0) & (refresh == 0)
    }
}
