// An incoming order on its way through the parts of a book in their order: the groups of the rule are stretches of them, each filled whole or
// shared.
#![tactic(auto)]

mod credit;
mod share;
mod stretch;

ghost use Rattle.allocation.specs.Credit.{ledger, Room};
ghost use Rattle.allocation.specs.Sharing.{Book, Lent, Walked};

use matching::Algorithm;
use matching::incoming::Incoming;
use units::Shares;

// How far an incoming order has come: what is left of it, and how many fills it has. These are in lent memory: a fill is a part with the
// shares that it got, and beside them stands, for each record of the book, what its order got of each visibility.
#[derive(Clone, Copy)]
pub struct Progress {
    pub incoming: Incoming,
    pub count: usize,
}

// What each part gets, group by group while shares are left. The columns are lent, and anything. They, and the fills and allotments, stay
// slices by themselves: tried, a struct of them has each contract and invariant say that it still holds the same references.
pub fn allocate(
    book: &[u8],
    keys: &[u64],
    incoming: Incoming,
    algorithm: Algorithm,
    lot: Shares,
    sizes: &mut [u32],
    minimums: &mut [u32],
    gets: &mut [u32],
    fills: &mut [u64],
    shown: &mut [u32],
    hidden: &mut [u32],
) -> Progress
    requires { Book book.now lot.0 algorithm incoming.taker keys.now
        × Lent keys.now sizes.old minimums.old gets.old
        × Room keys.now (ledger (record { incoming = incoming; count = 0 }) fills.old shown.old hidden.old) }
    ensures { Walked book.now keys.now lot.0 algorithm
        (ledger (record { incoming = incoming; count = 0 }) fills.old shown.old hidden.old)
        (ledger result fills.new shown.new hidden.new) }
{
    let mut reached = Progress { incoming, count: 0 };
    // A while: a turn ends where its group does.
    let mut at = 0;
    while at < keys.len() {
        let order = reached.incoming;
        let whole = at + stretch::whole(&keys[at..], order.size);
        reached = credit::fill(&keys[at..whole], reached, algorithm, fills, shown, hidden);
        if whole == keys.len() {
            return reached;
        }
        let order = reached.incoming;
        let left = order.size;
        if left.0 == 0 {
            return reached;
        }
        let end = stretch::group_end(keys, whole);
        reached = share::share(
            book,
            &keys[whole..end],
            reached,
            algorithm,
            lot,
            &mut sizes[..end - whole],
            &mut minimums[..end - whole],
            &mut gets[..end - whole],
            fills,
            shown,
            hidden,
        );
        at = end;
    }
    reached
}
