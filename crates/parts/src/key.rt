// A part of an order as one number: the rank of its price, the number of its paragraph, the place of its record, and its shares. A plain
// number and no type of its own: the slices of keys that are lent are of numbers, and `ordering` sorts those.
ghost use Rattle.std.specs.Prelude.{◌≡◌, ◌<◌, leb};
ghost use Rattle.parts.specs.Key.{key_of, rank_in, group_in, paragraph_in, place_in, shares_in, with_shares};

use units::Shares;

// The number of a part. The place by `as`: std has no u64 from a usize.
pub(crate) fn key_of(rank: u32, paragraph: u64, place: usize, shares: Shares) -> u64
    requires { (paragraph < 8) × (place < 512) × (shares.0 < 1048576) }
    ensures { result ≡ key_of rank paragraph place shares.0 }
{
    4_294_967_296 * u64::from(rank)
        + 536_870_912 * paragraph
        + 1_048_576 * (place as u64)
        + u64::from(shares.0)
}

// The rank of its price.
pub(crate) fn rank(key: u64) -> u64
    ensures { result ≡ rank_in key }
{
    key / 4_294_967_296
}

// The parts of one group, and no others, have the same.
pub fn group(key: u64) -> u64
    ensures { result ≡ group_in key }
{
    key / 536_870_912
}

// The number of the paragraph in whose group it stands.
pub fn paragraph(key: u64) -> u8
    ensures { result ≡ paragraph_in (group_in key) }
{
    (key / 536_870_912 % 8) as u8
}

// Whether that number isn't above this one: by one comparison, without taking it out of the key.
pub fn stands_up_to(key: u64, last: u8) -> bool
    ensures { result ≡ leb (paragraph_in (group_in key)) last }
{
    key % 4_294_967_296 < 536_870_912 * (u64::from(last) + 1)
}

// The place of its order's record.
pub fn place(key: u64) -> usize
    ensures { result ≡ place_in key }
{
    (key / 1_048_576 % 512) as usize
}

pub fn shares(key: u64) -> Shares
    ensures { result.0 ≡ shares_in key }
{
    Shares((key % 1_048_576) as u32)
}

// The part with so many shares of it.
pub fn with_shares(key: u64, shares: Shares) -> u64
    requires { shares.0 < 1048576 }
    ensures { result ≡ with_shares shares.0 key }
{
    key - key % 1_048_576 + u64::from(shares.0)
}
