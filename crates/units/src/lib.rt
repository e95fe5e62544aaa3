// Shares, round lots and prices, counted apart: one is never taken for another.
#![tactic(auto)]

ghost use Rattle.std.specs.Prelude.{◌≡◌, ◌+◌, ◌-◌, ◌*◌, ◌/◌, ◌^◌, ◌≤◌, ◌<◌, min};
ghost use Rattle.units.specs.Lists.{in_range};
ghost use Rattle.units.specs.Lots.{round_lot};

// A count of shares.
#[derive(Clone, Copy, PartialEq, Eq, PartialOrd, Ord)]
pub struct Shares(pub u32);

// A count of round lots.
#[derive(Clone, Copy, PartialEq, Eq, PartialOrd, Ord)]
pub struct Lots(pub u32);

// A price in ten-thousandths of a dollar.
#[derive(Clone, Copy, PartialEq, Eq, PartialOrd, Ord)]
pub struct Price(pub u32);

// The smaller of two counts.
pub fn least(a: Shares, b: Shares) -> Shares
    ensures { result.0 ≡ min a.0 b.0 }
{
    a.min(b)
}

// Two counts together.
pub fn sum(a: Shares, b: Shares) -> Shares
    requires { a.0 + b.0 < 2 ^ 32 }
    ensures { result.0 ≡ a.0 + b.0 }
{
    Shares(a.0 + b.0)
}

// What b leaves of a; nothing where b is the larger.
pub fn difference(a: Shares, b: Shares) -> Shares
    ensures { result.0 ≡ a.0 - b.0 }
{
    Shares(a.0.saturating_sub(b.0))
}

// The shares in a count of lots.
pub fn shares_of(lots: Lots, lot: Shares) -> Shares
    requires { lots.0 * lot.0 < 2 ^ 32 }
    ensures { result.0 ≡ lots.0 * lot.0 }
{
    Shares(lots.0 * lot.0)
}

// Whether n is one of lo .. hi.
pub fn in_range(lo: u32, hi: u32, n: u32) -> bool
    ensures { result ≡ in_range lo hi n }
{
    (lo..=hi).contains(&n)
}

// The shares in a round lot.
pub fn round_lot() -> Shares
    ensures { result.0 ≡ round_lot }
{
    Shares(100)
}
