// An order, and whom an order may trade with.
ghost use Rattle.std.specs.Prelude.{◌≡◌, ℕ, leb};
ghost use Rattle.orders.specs.Order.{side_number, side_of, kind_number, kind_of, minimum_of, hidden_of, refresh_of, is_displayed};
ghost use Rattle.orders.specs.Order.{interest, interest_of, all_shares, refreshed, settled, is_resting};

use units::{Price, Shares};

#[derive(Clone, Copy, PartialEq, Eq)]
pub enum Side {
    Buy,
    Sell,
}

// The side of a number: every number but that of a buy is a sell's.
impl From<u32> for Side {
    ghost from_gives = { λ number side. side ≡ side_of number };

    fn from(number: u32) -> Side
        ensures { result ≡ side_of number }
    {
        if number == 1 { Side::Buy } else { Side::Sell }
    }
}

// The number of a side.
impl From<Side> for u8 {
    ghost from_gives = { λ side number. number ≡ side_number side };

    fn from(side: Side) -> u8
        ensures { result ≡ side_number side }
    {
        match side {
            Side::Buy => 1,
            Side::Sell => 2,
        }
    }
}

// Only a minimum quantity order carries a minimum, and only a reserve order hidden shares, behind those that it shows, and a refresh size.
// The two that count as displayed stand together: whether a kind is one of them is one comparison.
#[derive(Clone, Copy, PartialEq, Eq)]
pub enum Kind {
    Displayed,
    Reserve(Shares, Shares),
    NonDisplayed,
    MinimumQuantity(Shares),
}

impl Kind {
    // The kind of a number, with the minimum, the hidden shares and the refresh size: four numbers, and so no From of one.
    pub fn of(number: u32, minimum: u32, hidden: u32, refresh: u32) -> Kind
        ensures { result ≡ kind_of number minimum hidden refresh }
    {
        match number {
            1 => Kind::Displayed,
            2 => Kind::NonDisplayed,
            3 => Kind::MinimumQuantity(Shares(minimum)),
            _ => Kind::Reserve(Shares(hidden), Shares(refresh)),
        }
    }

    // The number of a kind. It says nothing of what a kind carries, and so is no From.
    pub fn number(self) -> u8
        ensures { result ≡ kind_number self }
    {
        match self {
            Kind::Displayed => 1,
            Kind::NonDisplayed => 2,
            Kind::MinimumQuantity(_) => 3,
            Kind::Reserve(_, _) => 4,
        }
    }

    // The minimum of a kind, 0 where it carries none.
    pub fn minimum(self) -> Shares
        ensures { result.0 ≡ minimum_of self }
    {
        match self {
            Kind::MinimumQuantity(minimum) => minimum,
            _ => Shares(0),
        }
    }

    // The hidden shares of a reserve order, 0 of every other kind.
    pub fn hidden(self) -> Shares
        ensures { result.0 ≡ hidden_of self }
    {
        match self {
            Kind::Reserve(hidden, _) => hidden,
            _ => Shares(0),
        }
    }

    // The refresh size of a reserve order, 0 of every other kind.
    pub fn refresh(self) -> Shares
        ensures { result.0 ≡ refresh_of self }
    {
        match self {
            Kind::Reserve(_, refresh) => refresh,
            _ => Shares(0),
        }
    }

    // Whether an order of the kind with this number counts as displayed.
    pub fn is_displayed(number: u32) -> bool
        ensures { (m h s : ℕ) → result ≡ is_displayed (kind_of number m h s) }
    {
        !((number == 2) | (number == 3))
    }
}

// An order number is also the order's time: a lower one is earlier. The size of a reserve order is the shares that it shows.
#[derive(Clone, Copy, PartialEq, Eq)]
pub struct Order {
    pub side: Side,
    pub kind: Kind,
    pub number: u32,
    pub price: Price,
    pub size: Shares,
    pub setter: bool,
    pub security: u32,
}

// Displayed and non-displayed shares.
#[derive(Clone, Copy)]
struct Interest {
    displayed: Shares,
    others: Shares,
}

// Where nothing is shown any more, the smaller of the refresh size and the hidden shares is shown, and so many fewer are hidden.
fn refreshed(refresh: Shares, shown: Shares, hidden: Shares) -> Interest
    ensures { interest result.displayed.0 result.others.0 ≡ refreshed refresh.0 (interest shown.0 hidden.0) }
{
    if shown.0 == 0 {
        let displayed = units::least(refresh, hidden);
        return Interest {
            displayed,
            others: units::difference(hidden, displayed),
        };
    }
    Interest {
        displayed: shown,
        others: hidden,
    }
}

impl Order {
    // Its displayed shares.
    pub fn displayed(self) -> Shares
        ensures { result.0 ≡ (interest_of self).displayed }
    {
        match self.kind {
            Kind::Displayed => self.size,
            Kind::Reserve(_, _) => self.size,
            _ => Shares(0),
        }
    }

    // Its non-displayed shares.
    pub fn non_displayed(self) -> Shares
        ensures { result.0 ≡ (interest_of self).non_displayed }
    {
        match self.kind {
            Kind::Displayed => Shares(0),
            Kind::NonDisplayed => self.size,
            Kind::MinimumQuantity(_) => self.size,
            Kind::Reserve(behind, _) => behind,
        }
    }

    // Whether it has as many shares, displayed and others together.
    pub fn has(self, shares: Shares) -> bool
        ensures { result ≡ leb shares.0 (all_shares (interest_of self)) }
    {
        let beyond = units::difference(shares, self.displayed());
        beyond <= self.non_displayed()
    }

    // Whether it has shares.
    pub fn rests(self) -> bool
        ensures { result ≡ is_resting self }
    {
        self.has(Shares(1))
    }

    // The order of another kind and size, and else the same.
    fn with(self, kind: Kind, size: Shares) -> Order
        ensures { result ≡ record { side = self.side; kind = kind; number = self.number; price = self.price; size = size; setter = self.setter; security = self.security } }
    {
        Order { kind, size, ..self }
    }

    // The order after it lost displayed and non-displayed shares: a minimum above the new size becomes the new size, and a reserve order
    // that shows nothing any more is refreshed.
    #[tactic(auto, unfolding(crate::specs::Order::settled, crate::specs::Order::with_interest))]
    pub fn settled(self, shown: Shares, hidden: Shares) -> Order
        ensures { result ≡ settled (interest shown.0 hidden.0) self }
    {
        let kind = self.kind;
        let size = self.size;
        match kind {
            Kind::Displayed => self.with(kind, units::difference(size, shown)),
            Kind::NonDisplayed => self.with(kind, units::difference(size, hidden)),
            Kind::MinimumQuantity(minimum) => {
                let left = units::difference(size, hidden);
                self.with(Kind::MinimumQuantity(units::least(minimum, left)), left)
            }
            Kind::Reserve(behind, refresh) => {
                let left = refreshed(
                    refresh,
                    units::difference(size, shown),
                    units::difference(behind, hidden),
                );
                self.with(Kind::Reserve(left.others, refresh), left.displayed)
            }
        }
    }
}

// An order seen as a taker of liquidity: its side, the worst price that it trades at, and its security.
#[derive(Clone, Copy, PartialEq, Eq)]
pub struct Taker {
    pub side: Side,
    pub limit: Price,
    pub security: u32,
}
