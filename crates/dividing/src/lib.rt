// How a group, the orders at one price in one paragraph, divides fewer shares than it has. Its orders are lent as columns of numbers in the
// order of place, which is by time; the columns of sizes and minimums are spent.
#![tactic(auto)]

ghost use Rattle.std.specs.Prelude.{◌≡◌, List};
ghost use Rattle.sharing.specs.Rank.{Part};
ghost use Rattle.sharing.specs.Method.{allot_by};
ghost use Rattle.dividing.specs.Group.{Division, Group, Within};

use sharing::{Method, Rank};
use units::Shares;

mod lots;
mod round;
mod setter;
mod turns;

// What is divided: the shares left, no more than the group's total, by this lot. What holds of them beside the lent columns, of which a
// ghost field can't speak, is `Division`.
#[derive(Clone, Copy)]
pub struct Amounts {
    pub total: Shares,
    pub left: Shares,
    pub lot: Shares,
}

// What each order gets of the shares left by the group's method. The price setter is the one at the place setter, if one stands there.
pub fn divide(
    method: Method,
    sizes: &mut [u32],
    minimums: &mut [u32],
    setter: usize,
    amounts: Amounts,
    gets: &mut [u32],
)
    requires { Division sizes.old minimums.old gets.old amounts.total.0 amounts.left.0 amounts.lot.0
        × Within method minimums.old sizes.old }
    ensures { (ps : List Part) → Group method sizes.old minimums.old setter ps
        → gets.new ≡ allot_by method amounts.lot.0 amounts.left.0 ps }
{
    match method {
        Method::InTurn(rank) => match rank {
            Rank::Time => turns::by_time(minimums, sizes, amounts.left, gets),
            Rank::Size => turns::by_size(sizes, amounts.left, gets),
            Rank::Minimum => turns::by_minimum(minimums, sizes, amounts.left, gets),
        },
        Method::Lots => lots::lot_sharing(sizes, amounts, minimums, gets),
        Method::Setter => setter::setter_sharing(sizes, setter, amounts, minimums, gets),
    }
}
