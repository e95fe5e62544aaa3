// Where the best price alone must take all the shares, only its parts are needed.
ghost use Rattle.std.specs.Prelude.{◌≡◌, ◌≤◌, length, take};
ghost use Rattle.units.specs.Lists.{filter, total};
ghost use Rattle.units.proofs.Members.{Every};
ghost use Rattle.parts.specs.Narrowed.{minimum_paragraph, of_rank, free_shares, Narrowed};

use crate::key;
use matching::Algorithm;
use units::Shares;

// No key is lower.
fn lowest(keys: &[u64]) -> u64
    ensures { Every (λ k. result ≤ k) keys.now }
{
    keys.iter().copied().min().unwrap_or(u64::MAX)
}

// The number of the paragraph in whose group orders with a minimum stand; a number, as keys hold it.
fn minimum_paragraph(algorithm: Algorithm) -> u64
    ensures { result ≡ minimum_paragraph algorithm }
{
    match algorithm {
        Algorithm::PriceTime => 3,
        Algorithm::ProRata => 5,
        Algorithm::PriceSetter => 5,
    }
}

// The shares of a part of this rank, where it stands in another paragraph's group than this one.
fn free_shares(key: u64, rank: u64, excluded: u64) -> Shares
    ensures { (alg : Algorithm) → excluded ≡ minimum_paragraph alg → result.0 ≡ free_shares alg rank key }
{
    let test = (key::rank(key) == rank) & !(key::group(key) % 8 == excluded);
    let shares = key::shares(key);
    Shares(u32::from(test) * shares.0)
}

// The shares of the parts of a rank that have no minimum.
fn free_total(keys: &[u64], algorithm: Algorithm, rank: u64) -> Shares
    requires { length keys.now ≤ 512 }
    ensures { result.0 ≡ total (free_shares algorithm rank) keys.now }
{
    let excluded = minimum_paragraph(algorithm);
    let mut total = Shares(0);
    for &key in keys {
        total = units::sum(total, free_shares(key, rank, excluded));
    }
    total
}

// The keys of a rank move to the front, in their order. Gives their number.
fn keep(keys: &mut [u64], rank: u64) -> usize
    ensures { (result ≤ length keys.old) × (take result keys.new ≡ filter (of_rank rank) keys.old) }
{
    let mut count = 0;
    for k in 0..keys.len() {
        let key = keys[k];
        keys[count] = key;
        count += usize::from(key::rank(key) == rank);
    }
    count
}

// The keys that are needed move to the front, in their order. Gives their number.
pub(crate) fn narrow(keys: &mut [u64], algorithm: Algorithm, size: Shares) -> usize
    requires { length keys.old ≤ 512 }
    ensures { (result ≤ length keys.old) × Narrowed algorithm size.0 keys.old (take result keys.new) }
{
    let rank = key::rank(lowest(keys));
    let total = free_total(keys, algorithm, rank);
    if size.0 <= total.0 {
        keep(keys, rank)
    } else {
        keys.len()
    }
}
