// The incoming order.
ghost use Rattle.std.specs.Prelude.{◌≡◌};
ghost use Rattle.matching.specs.Incoming.{executed};

use orders::order::Taker;
use units::Shares;

// An incoming order goes by value: whom it may trade with, and the shares that it still wants.
#[derive(Clone, Copy)]
pub struct Incoming {
    pub taker: Taker,
    pub size: Shares,
}

impl Incoming {
    // The smaller order that is left after shares of it were executed.
    pub fn executed(self, shares: Shares) -> Incoming
        ensures { result ≡ executed shares.0 self }
    {
        let taker = self.taker;
        let size = units::difference(self.size, shares);
        Incoming { taker, size }
    }
}
