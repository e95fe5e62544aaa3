// Shares go round by keys, largest key first, and of equal ones the earlier. It needs no sort: a threshold on the key is found by halving.
// Those above it get what they want, those at it take in their order what remains, and those below it get nothing. Among few each place is
// looked at by itself.
ghost use Rattle.std.specs.Prelude.{◌≡◌, ℕ, ◌+◌, ◌-◌, ◌^◌, ◌≤◌, ◌<◌, length, get_or};
ghost use Rattle.units.specs.Lists.{sum, zip_with};
ghost use Rattle.dividing.specs.Columns.{want_above, above, ahead_at, may_take, takes_at, turn_at, in_order, Served};

use units::Shares;

// Those among whom shares go round, in the order of place: the key of each, and what it wants.
#[derive(Clone, Copy)]
pub(crate) struct Round<'a> {
    pub(crate) keys: &'a [u32],
    pub(crate) wants: &'a [u32],
    ghost as_many: { length wants.now ≡ length keys.now },
    ghost countable: { sum wants.now < 2 ^ 32 },
}

// The largest number of a column.
pub(crate) fn largest(column: &[u32]) -> u32
    ensures { (i : ℕ) → get_or column.now i 0 ≤ result }
{
    column.iter().copied().max().unwrap_or(0)
}

// What one takes of what is left: nothing, being passed over, while its minimum exceeds what is left.
pub(crate) fn taking(minimum: Shares, want: Shares, left: Shares) -> Shares
    ensures { result.0 ≡ may_take minimum.0 want.0 left.0 }
{
    if minimum.0 <= left.0 {
        units::least(want, left)
    } else {
        Shares(0)
    }
}

impl Round<'_> {
    // What those want that have their turn before the one at a place: the earlier ones of its key or above, and the later ones above it.
    fn ahead(self, place: usize) -> Shares
        requires { place < length self.keys.now }
        ensures { result.0 ≡ ahead_at (get_or self.entry.keys.now place 0) place self.entry.keys.now self.entry.wants.now }
    {
        let key = self.keys[place];
        let wants = self.wants;
        let mut sum = Shares(0);
        for (j, &x) in self.keys.iter().enumerate() {
            let first = (key < x) | ((j < place) & (key <= x));
            sum = units::sum(sum, Shares(u32::from(first) * wants[j]));
        }
        sum
    }

    // What the one at a place takes of the rest in its turn. One of key x has the minimum top - x.
    pub(crate) fn turn_at(self, place: usize, top: Shares, rest: Shares) -> Shares
        requires { place < length self.keys.now }
        ensures { result.0 ≡ turn_at top.0 rest.0 self.entry.keys.now self.entry.wants.now place }
    {
        taking(
            units::difference(top, Shares(self.keys[place])),
            Shares(self.wants[place]),
            units::difference(rest, self.ahead(place)),
        )
    }

    // The rest goes round once, on top of what each has.
    pub(crate) fn serve_few(self, top: Shares, rest: Shares, gets: &mut [u32])
        requires { (length gets.old ≡ length self.keys.now)
            × ((i : ℕ) → get_or gets.old i 0 + get_or self.wants.now i 0 < 2 ^ 32) }
        ensures { Served top.0 rest.0 self.entry.keys.now self.entry.wants.now gets.old gets.new }
    {
        for j in 0..self.keys.len() {
            let part = self.turn_at(j, top, rest);
            gets[j] += part.0;
        }
    }

    // What those of a key above t want. By places: over zip it took 1.7 times as long with 256 of them.
    fn above(self, t: u32) -> Shares
        ensures { result.0 ≡ above t self.entry.keys.now self.entry.wants.now }
    {
        let wants = self.wants;
        let mut sum = Shares(0);
        for (j, &x) in self.keys.iter().enumerate() {
            sum = units::sum(sum, Shares(u32::from(t < x) * wants[j]));
        }
        sum
    }

    // The least t, at most top, such that the rest serves all above t.
    fn cut(self, top: u32, rest: Shares) -> u32
        requires { above top self.keys.now self.wants.now ≤ rest.0 }
        ensures { (above result self.entry.keys.now self.entry.wants.now ≤ rest.0)
            × ((s : ℕ) → s < result → rest.0 < above s self.entry.keys.now self.entry.wants.now) }
    {
        // A while: two bounds that come together.
        let mut lo = 0;
        let mut hi = top;
        while lo < hi {
            let mid = lo + (hi - lo) / 2;
            let wanted = self.above(mid);
            if wanted.0 <= rest.0 {
                hi = mid;
            } else {
                lo = mid + 1;
            }
        }
        hi
    }

    // Those above t get what they want.
    fn serve_above(self, t: u32, gets: &mut [u32])
        requires { (length gets.old ≡ length self.keys.now)
            × ((i : ℕ) → get_or gets.old i 0 + get_or self.wants.now i 0 < 2 ^ 32) }
        ensures { gets.new ≡ zip_with ◌+◌ gets.old (zip_with (want_above t) self.entry.keys.now self.entry.wants.now) }
    {
        let wants = self.wants;
        for (j, &x) in self.keys.iter().enumerate() {
            gets[j] += u32::from(t < x) * wants[j];
        }
    }

    // Those of key t take, in their order, what they may of the rest.
    fn serve_equal(self, t: u32, minimum: Shares, rest: Shares, gets: &mut [u32])
        requires { (length gets.old ≡ length self.keys.now)
            × ((i : ℕ) → get_or self.keys.now i 0 ≡ t → get_or gets.old i 0 + get_or self.wants.now i 0 < 2 ^ 32) }
        ensures { gets.new
            ≡ zip_with ◌+◌ gets.old (in_order (takes_at t minimum.0) rest.0 self.entry.keys.now self.entry.wants.now) }
    {
        let wants = self.wants;
        let mut left = rest;
        for (j, &x) in self.keys.iter().enumerate() {
            if x == t {
                let part = taking(minimum, Shares(wants[j]), left);
                gets[j] += part.0;
                left = units::difference(left, part);
            }
        }
    }

    // The rest goes round once, on top of what each has: among few without a threshold. One of key x has the minimum top - x, which it
    // wants at least.
    pub(crate) fn serve(self, top: Shares, rest: Shares, gets: &mut [u32])
        requires { (length gets.old ≡ length self.keys.now)
            × ((i : ℕ) → get_or gets.old i 0 + get_or self.wants.now i 0 < 2 ^ 32)
            × ((i : ℕ) → i < length self.keys.now → top.0 - get_or self.keys.now i 0 ≤ get_or self.wants.now i 0) }
        ensures { Served top.0 rest.0 self.entry.keys.now self.entry.wants.now gets.old gets.new }
    {
        if self.keys.len() <= 4 {
            self.serve_few(top, rest, gets);
            return;
        }
        let t = self.cut(largest(self.keys), rest);
        let remains = units::difference(rest, self.above(t));
        self.serve_above(t, gets);
        self.serve_equal(t, units::difference(top, Shares(t)), remains, gets);
    }
}
