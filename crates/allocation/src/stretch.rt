// The groups of keys that rise: each is a stretch of them.
ghost use Rattle.std.specs.Prelude.{◌≡◌, ℕ, ◌+◌, ◌≤◌, ◌<◌, length, take};
ghost use Rattle.units.specs.Lists.{total};
ghost use Rattle.ordering.specs.Sorted.{Rising};
ghost use Rattle.parts.specs.Key.{shares_in};
ghost use Rattle.allocation.specs.Stretch.{group_at, Whole, Ends};

use parts::key;
use units::Shares;

// How many parts, from the front on, the shares left fill.
fn filled(keys: &[u64], left: Shares) -> usize
    ensures { (result ≤ length keys.now)
        × (total shares_in (take result keys.now) ≤ left.0)
        × (result < length keys.now → left.0 < total shares_in (take (result + 1) keys.now)) }
{
    let mut rest = left;
    for (k, &key) in keys.iter().enumerate() {
        let shares = key::shares(key);
        if rest.0 < shares.0 {
            return k;
        }
        rest = units::difference(rest, shares);
    }
    keys.len()
}

// Where the group of the key at a place begins.
fn group_start(keys: &[u64], place: usize) -> usize
    requires { place < length keys.now }
    ensures { (result ≤ place)
        × ((j : ℕ) → result ≤ j → j < place → group_at keys.now j ≡ group_at keys.now place)
        × ((j : ℕ) → result ≡ j + 1 → group_at keys.now j ≡ group_at keys.now place → ⊥) }
{
    let group = key::group(keys[place]);
    for j in (0..place).rev() {
        if key::group(keys[j]) != group {
            return j + 1;
        }
    }
    0
}

// How many keys, from the front on, are whole groups that the shares left fill.
pub(crate) fn whole(keys: &[u64], left: Shares) -> usize
    requires { Rising 0 keys.now }
    ensures { Whole keys.now left.0 result }
{
    let filled = filled(keys, left);
    if filled == keys.len() {
        return filled;
    }
    group_start(keys, filled)
}

// Where the group of the key at a place, its first, ends.
pub(crate) fn group_end(keys: &[u64], from: usize) -> usize
    requires { Rising 0 keys.now × (from < length keys.now) }
    ensures { Ends keys.now from result }
{
    let group = key::group(keys[from]);
    for k in from + 1..keys.len() {
        if key::group(keys[k]) != group {
            return k;
        }
    }
    keys.len()
}
