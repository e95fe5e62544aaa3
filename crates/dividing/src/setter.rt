// Lot sharing with a price setter, the rule's variation.
ghost use Rattle.std.specs.Prelude.{◌≡◌, List, ◌-◌, ◌*◌, ◌/◌, ◌≤◌, ◌<◌, min, length, get_or};
ghost use Rattle.sharing.specs.Rank.{Part};
ghost use Rattle.sharing.specs.Setter.{beside_setter, setter_sharing};
ghost use Rattle.dividing.specs.Columns.{Sizes};
ghost use Rattle.dividing.specs.Group.{Division, SetterAt};

use crate::Amounts;
use crate::lots::{lot_sharing, steps};
use crate::round::Round;
use units::Shares;

// The guarantee: the smaller of the setter's size and two fifths of q, rounded down to a share.
fn guarantee(size: Shares, q: Shares) -> Shares
    ensures { result.0 ≡ min size.0 (2 * q.0 / 5) }
{
    units::least(size, Shares((2 * u64::from(q.0) / 5) as u32))
}

// The setter gets what it is guaranteed, and the others share what it leaves.
fn beside_setter(
    sizes: &mut [u32],
    place: usize,
    amounts: Amounts,
    guaranteed: Shares,
    wants: &mut [u32],
    gets: &mut [u32],
)
    requires { Division sizes.old wants.old gets.old amounts.total.0 amounts.left.0 amounts.lot.0
        × (place < length sizes.old)
        × (guaranteed.0 ≡ min (get_or sizes.old place 0) (2 * amounts.left.0 / 5))
        × (amounts.left.0 - guaranteed.0 ≤ amounts.total.0 - get_or sizes.old place 0) }
    ensures { (ps : List Part) → Sizes sizes.old ps → SetterAt place ps
        → gets.new ≡ beside_setter amounts.lot.0 amounts.left.0 ps }
{
    let size = Shares(sizes[place]);
    sizes[place] = 0;
    let others = Amounts {
        total: units::difference(amounts.total, size),
        left: units::difference(amounts.left, guaranteed),
        lot: amounts.lot,
    };
    lot_sharing(sizes, others, wants, gets);
    gets[place] = guaranteed.0;
}

// What each gets where the one at a place, if one stands there, is the price setter. Both steps tell the setter's plain share: the rest
// goes round only where that is more than it is guaranteed.
pub(crate) fn setter_sharing(
    sizes: &mut [u32],
    place: usize,
    amounts: Amounts,
    wants: &mut [u32],
    gets: &mut [u32],
)
    requires { Division sizes.old wants.old gets.old amounts.total.0 amounts.left.0 amounts.lot.0 }
    ensures { (ps : List Part) → Sizes sizes.old ps → SetterAt place ps
        → gets.new ≡ setter_sharing amounts.lot.0 amounts.left.0 ps }
{
    if sizes.len() <= place {
        lot_sharing(sizes, amounts, wants, gets);
        return;
    }
    let guaranteed = guarantee(Shares(sizes[place]), amounts.left);
    let rest = steps(sizes, amounts, wants, gets);
    let round = Round { keys: sizes, wants };
    let more = round.turn_at(place, Shares(0), rest);
    let share = units::sum(Shares(gets[place]), more);
    if guaranteed.0 < share.0 {
        round.serve(Shares(0), rest, gets);
        return;
    }
    beside_setter(sizes, place, amounts, guaranteed, wants, gets);
}
