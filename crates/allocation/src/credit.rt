// What parts get, kept: each fill behind those before it, and the shares of each record.
ghost use Rattle.std.specs.Prelude.{◌≡◌, map, ◌+◌, ◌^◌, ◌≤◌, ◌<◌, length, get_or, set};
ghost use Rattle.units.specs.Lists.{sum, total};
ghost use Rattle.units.proofs.Members.{Every};
ghost use Rattle.orders.specs.Order.{Visibility};
ghost use Rattle.parts.specs.Key.{place_in, shares_in};
ghost use Rattle.parts.specs.Visible.{last_shown};
ghost use Rattle.allocation.specs.Credit.{seen, noted, ledger, Room, Credited};

use crate::Progress;
use matching::Algorithm;
use parts::{key, visible};
use units::Shares;

// A record got so many shares more.
fn note(allotment: &mut [u32], place: usize, shares: Shares)
    requires { (place < length allotment.old) × (get_or allotment.old place 0 + shares.0 < 2 ^ 32) }
    ensures { allotment.new ≡ set allotment.old place (get_or allotment.old place 0 + shares.0) }
{
    allotment[place] = units::sum(Shares(allotment[place]), shares).0;
}

// The record of a part got so many shares more, displayed ones where its paragraph isn't behind the last of those.
fn note_part(key: u64, shares: Shares, last: u8, shown: &mut [u32], hidden: &mut [u32])
    requires { (v : Visibility) → (place_in key < length (seen v shown.old hidden.old))
        × (get_or (seen v shown.old hidden.old) (place_in key) 0 + shares.0 < 2 ^ 32) }
    ensures { (alg : Algorithm) (v : Visibility) → last ≡ last_shown alg
        → seen v shown.new hidden.new ≡ noted alg v key shares.0 (seen v shown.old hidden.old) }
{
    let place = key::place(key);
    if key::stands_up_to(key, last) {
        note(shown, place, shares);
    } else {
        note(hidden, place, shares);
    }
}

// Each part is filled.
pub(crate) fn fill(
    keys: &[u64],
    from: Progress,
    algorithm: Algorithm,
    fills: &mut [u64],
    shown: &mut [u32],
    hidden: &mut [u32],
) -> Progress
    requires { Room keys.now (ledger from fills.old shown.old hidden.old)
        × (total shares_in keys.now ≤ from.incoming.size.0)
        × Every (λ k. 0 < shares_in k) keys.now }
    ensures { Credited algorithm keys.now (map shares_in keys.now)
        (ledger from fills.old shown.old hidden.old)
        (ledger result fills.new shown.new hidden.new) }
{
    let incoming = from.incoming;
    let last = visible::last_shown(algorithm);
    let mut used = Shares(0);
    for (k, &key) in keys.iter().enumerate() {
        let shares = key::shares(key);
        fills[from.count + k] = key;
        note_part(key, shares, last, shown, hidden);
        used = units::sum(used, shares);
    }
    Progress {
        incoming: incoming.executed(used),
        count: from.count + keys.len(),
    }
}

// Each part gets the shares beside it, and those that get none have no fill.
pub(crate) fn credit(
    keys: &[u64],
    gets: &[u32],
    from: Progress,
    algorithm: Algorithm,
    fills: &mut [u64],
    shown: &mut [u32],
    hidden: &mut [u32],
) -> Progress
    requires { Room keys.now (ledger from fills.old shown.old hidden.old)
        × (length gets.now ≡ length keys.now)
        × (sum gets.now ≤ from.incoming.size.0) }
    ensures { Credited algorithm keys.now gets.now
        (ledger from fills.old shown.old hidden.old)
        (ledger result fills.new shown.new hidden.new) }
{
    let incoming = from.incoming;
    let last = visible::last_shown(algorithm);
    let mut count = from.count;
    let mut used = Shares(0);
    for (k, &key) in keys.iter().enumerate() {
        let shares = Shares(gets[k]);
        fills[count] = key::with_shares(key, shares);
        note_part(key, shares, last, shown, hidden);
        used = units::sum(used, shares);
        count += usize::from(0 < shares.0);
    }
    Progress {
        incoming: incoming.executed(used),
        count,
    }
}
