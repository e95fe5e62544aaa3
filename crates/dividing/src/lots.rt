// Lot sharing, for any lot of 1 or more.
ghost use Rattle.std.specs.Prelude.{◌≡◌, List, map, ◌*◌, ◌/◌, ◌^◌, ◌≤◌, ◌<◌, length};
ghost use Rattle.units.specs.Lists.{sum, zip_with};
ghost use Rattle.sharing.specs.Rank.{Part};
ghost use Rattle.sharing.specs.Lots.{lot_sharing};
ghost use Rattle.dividing.specs.Columns.{Sizes, first_of, second_of, Stepped};
ghost use Rattle.dividing.specs.Group.{Division};

use crate::Amounts;
use crate::round::Round;
use units::{Lots, Shares};

// A fraction of 1 at most, and 2^32 times it, rounded down.
#[derive(Clone, Copy)]
struct Fraction {
    part: u64,
    whole: u64,
    scaled: u64,
    ghost narrow: { part < 2 ^ 32 },
    ghost proper: { part ≤ whole },
    ghost some: { 0 < whole },
    ghost is_scaled: { scaled ≡ 4294967296 * part / whole },
}

impl Fraction {
    // The fraction of x, rounded down. The estimate is it or one less.
    fn quotient(self, x: u64) -> u64
        requires { x < 2 ^ 32 }
        ensures { result ≡ x * self.part / self.whole }
    {
        let e = x * self.scaled / 4_294_967_296;
        if self.whole <= x * self.part - e * self.whole {
            e + 1
        } else {
            e
        }
    }
}

// What of a lot's size each share of the group gets.
fn fraction_of(amounts: Amounts) -> Fraction
    requires { (amounts.left.0 ≤ amounts.total.0) × (0 < amounts.total.0) × (0 < amounts.lot.0) }
    ensures { (result.part ≡ amounts.left.0) × (result.whole ≡ amounts.total.0 * amounts.lot.0) }
{
    let part = u64::from(amounts.left.0);
    let whole = u64::from(amounts.total.0) * u64::from(amounts.lot.0);
    Fraction {
        part,
        whole,
        scaled: 4_294_967_296 * part / whole,
    }
}

// What one first gets: size * q / s, rounded down to whole lots.
fn first_step(size: Shares, amounts: Amounts, fraction: Fraction) -> Shares
    requires { (amounts.left.0 ≤ amounts.total.0)
        × (0 < amounts.lot.0)
        × (fraction.part ≡ amounts.left.0)
        × (fraction.whole ≡ amounts.total.0 * amounts.lot.0) }
    ensures { result.0 ≡ first_of amounts.lot.0 amounts.left.0 amounts.total.0 size.0 }
{
    units::shares_of(
        Lots(fraction.quotient(u64::from(size.0)) as u32),
        amounts.lot,
    )
}

// What each first gets; gives the sum.
fn first_steps(sizes: &[u32], amounts: Amounts, gets: &mut [u32]) -> Shares
    requires { (length gets.old ≡ length sizes.now)
        × (sum sizes.now < 2 ^ 32)
        × (amounts.left.0 ≤ amounts.total.0)
        × (0 < amounts.total.0)
        × (0 < amounts.lot.0) }
    ensures { (gets.new ≡ map (first_of amounts.lot.0 amounts.left.0 amounts.total.0) sizes.now) × (result.0 ≡ sum gets.new) }
{
    let fraction = fraction_of(amounts);
    let mut sum = Shares(0);
    for (j, &size) in sizes.iter().enumerate() {
        let part = first_step(Shares(size), amounts, fraction);
        gets[j] = part.0;
        sum = units::sum(sum, part);
    }
    sum
}

// What each may get of the rest: the smaller of one lot and what its size still lacks.
fn second_steps(sizes: &[u32], gets: &[u32], lot: Shares, wants: &mut [u32])
    requires { (length gets.now ≡ length sizes.now) × (length wants.old ≡ length sizes.now) }
    ensures { wants.new ≡ zip_with (second_of lot.0) sizes.now gets.now }
{
    for (j, &size) in sizes.iter().enumerate() {
        let want = units::least(lot, units::difference(Shares(size), Shares(gets[j])));
        wants[j] = want.0;
    }
}

// Both steps; gives what the first leaves.
pub(crate) fn steps(sizes: &[u32], amounts: Amounts, wants: &mut [u32], gets: &mut [u32]) -> Shares
    requires { Division sizes.now wants.old gets.old amounts.total.0 amounts.left.0 amounts.lot.0 }
    ensures { Stepped amounts.lot.0 amounts.left.0 amounts.total.0 sizes.now wants.new gets.new result.0 }
{
    let given = first_steps(sizes, amounts, gets);
    second_steps(sizes, gets, amounts.lot, wants);
    units::difference(amounts.left, given)
}

// What each gets by lots.
pub(crate) fn lot_sharing(sizes: &[u32], amounts: Amounts, wants: &mut [u32], gets: &mut [u32])
    requires { Division sizes.now wants.old gets.old amounts.total.0 amounts.left.0 amounts.lot.0 }
    ensures { (ps : List Part) → Sizes sizes.now ps → gets.new ≡ lot_sharing amounts.lot.0 amounts.left.0 ps }
{
    let rest = steps(sizes, amounts, wants, gets);
    let round = Round { keys: sizes, wants };
    round.serve(Shares(0), rest, gets);
}
