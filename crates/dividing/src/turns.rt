// Each in its turn takes up to its size of what remains: by time, the largest first, or the one of the smallest minimum first.
ghost use Rattle.std.specs.Prelude.{◌≡◌, List, map, ℕ, ◌-◌, ◌^◌, ◌≤◌, ◌<◌, length, get_or};
ghost use Rattle.units.specs.Lists.{sum};
ghost use Rattle.sharing.specs.declared.Rank.TheVariants.{Time, Minimum};
ghost use Rattle.sharing.specs.declared.Method.TheVariants.{InTurn};
ghost use Rattle.sharing.specs.Rank.{Part, part_size, by_time, larger, smaller_minimum};
ghost use Rattle.sharing.specs.Round.{round};
ghost use Rattle.dividing.specs.Columns.{Sizes};
ghost use Rattle.dividing.specs.Group.{Group};

use crate::round::{Round, largest, taking};
use units::Shares;

// In turn by time: each is passed over while its minimum exceeds what remains.
pub(crate) fn by_time(minimums: &[u32], sizes: &[u32], left: Shares, gets: &mut [u32])
    requires { (length minimums.now ≡ length sizes.now) × (length gets.old ≡ length sizes.now) }
    ensures { (k : ℕ) (ps : List Part) → Group (InTurn Time) sizes.now minimums.now k ps
        → gets.new ≡ round by_time part_size left.0 ps }
{
    let mut remains = left;
    for (j, &size) in sizes.iter().enumerate() {
        let part = taking(Shares(minimums[j]), Shares(size), remains);
        gets[j] = part.0;
        remains = units::difference(remains, part);
    }
}

// The largest first.
pub(crate) fn by_size(sizes: &[u32], left: Shares, gets: &mut [u32])
    requires { (length gets.old ≡ length sizes.now) × (sum sizes.now < 2 ^ 32) }
    ensures { (ps : List Part) → Sizes sizes.now ps → gets.new ≡ round larger part_size left.0 ps }
{
    gets.fill(0);
    let round = Round {
        keys: sizes,
        wants: sizes,
    };
    round.serve(Shares(0), left, gets);
}

// The smallest number becomes the largest.
fn turn_over(column: &mut [u32], top: u32)
    requires { (i : ℕ) → get_or column.old i 0 ≤ top }
    ensures { column.new ≡ map (λ x. top - x) column.old }
{
    for x in column.iter_mut() {
        *x = top - *x;
    }
}

// The one of the smallest minimum first: its key, turned over, is the largest.
pub(crate) fn by_minimum(minimums: &mut [u32], sizes: &[u32], left: Shares, gets: &mut [u32])
    requires { (length minimums.old ≡ length sizes.now)
        × (length gets.old ≡ length sizes.now)
        × (sum sizes.now < 2 ^ 32)
        × ((i : ℕ) → get_or minimums.old i 0 ≤ get_or sizes.now i 0) }
    ensures { (k : ℕ) (ps : List Part) → Group (InTurn Minimum) sizes.now minimums.old k ps
        → gets.new ≡ round smaller_minimum part_size left.0 ps }
{
    let top = largest(minimums);
    turn_over(minimums, top);
    gets.fill(0);
    let round = Round {
        keys: minimums,
        wants: sizes,
    };
    round.serve(Shares(top), left, gets);
}
