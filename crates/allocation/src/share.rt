// A group that has more than the shares left: its columns, and what each part gets.
ghost use Rattle.std.specs.Prelude.{◌≡◌, true, map, ◌≤◌, ◌<◌, length, get_or};
ghost use Rattle.units.specs.Lists.{total};
ghost use Rattle.units.proofs.Members.{Every};
ghost use Rattle.book.specs.Sound.{sound, orders_of, order_at};
ghost use Rattle.parts.specs.Key.{group_in, place_in, shares_in};
ghost use Rattle.allocation.specs.Walk.{part_in, shared_by};
ghost use Rattle.allocation.specs.Credit.{ledger, Room, Credited};
ghost use Rattle.allocation.specs.Sharing.{Book, minimum_in, Columns, Shared, FirstSetter, Needed};

use crate::{Progress, credit};
use book::records;
use book::records::RECORD_BYTES;
use dividing::Amounts;
use matching::{Algorithm, Paragraph};
use parts::key;
use sharing::Method;
use units::Shares;

// The shares of each part, and their total.
fn sizes_of(keys: &[u64], sizes: &mut [u32]) -> Shares
    requires { (length sizes.old ≡ length keys.now) × (length keys.now ≤ 512) }
    ensures { (sizes.new ≡ map shares_in keys.now) × (result.0 ≡ total shares_in keys.now) }
{
    let mut total = Shares(0);
    for (k, &key) in keys.iter().enumerate() {
        let shares = key::shares(key);
        sizes[k] = shares.0;
        total = units::sum(total, shares);
    }
    total
}

// The minimum of each part's order.
fn minimums_of(book: &[u8], keys: &[u64], minimums: &mut [u32])
    requires { (length minimums.old ≡ length keys.now) × Every (λ k. place_in k < length (orders_of book.now)) keys.now × (sound book.now ≡ true) }
    ensures { minimums.new ≡ map (minimum_in book.now) keys.now }
{
    for (k, &key) in keys.iter().enumerate() {
        let order = records::order_at(book, RECORD_BYTES * key::place(key));
        let kind = order.kind;
        let minimum = kind.minimum();
        minimums[k] = minimum.0;
    }
}

// The place of the first price setter among the parts, or their number where none is one.
fn setter_place(book: &[u8], keys: &[u64]) -> usize
    requires { Every (λ k. place_in k < length (orders_of book.now)) keys.now × (sound book.now ≡ true) }
    ensures { FirstSetter (map (part_in (order_at book.now)) keys.now) result }
{
    for (k, &key) in keys.iter().enumerate() {
        let order = records::order_at(book, RECORD_BYTES * key::place(key));
        if order.setter {
            return k;
        }
    }
    keys.len()
}

// What a method needs besides the sizes: the minimums where it is in turn, and the place of the price setter where it has one.
fn needs(book: &[u8], keys: &[u64], method: Method, minimums: &mut [u32]) -> usize
    requires { (length minimums.old ≡ length keys.now) × Every (λ k. place_in k < length (orders_of book.now)) keys.now × (sound book.now ≡ true) }
    ensures { Needed book.now keys.now method minimums.new result }
{
    match method {
        Method::InTurn(_) => {
            minimums_of(book, keys, minimums);
            0
        }
        Method::Lots => 0,
        Method::Setter => setter_place(book, keys),
    }
}

// The parts of a group, which has more than the shares left, get what its paragraph gives them. The columns are lent, and anything.
pub(crate) fn share(
    book: &[u8],
    keys: &[u64],
    from: Progress,
    algorithm: Algorithm,
    lot: Shares,
    sizes: &mut [u32],
    minimums: &mut [u32],
    gets: &mut [u32],
    fills: &mut [u64],
    shown: &mut [u32],
    hidden: &mut [u32],
) -> Progress
    requires { Book book.now lot.0 algorithm from.incoming.taker keys.now
        × Columns keys.now sizes.old minimums.old gets.old
        × Shared keys.now from.incoming.size.0
        × Room keys.now (ledger from fills.old shown.old hidden.old) }
    ensures { Credited algorithm keys.now (shared_by (order_at book.now) lot.0 algorithm (group_in (get_or keys.now 0 0)) keys.now from.incoming.size.0)
        (ledger from fills.old shown.old hidden.old)
        (ledger result fills.new shown.new hidden.new) }
{
    let incoming = from.incoming;
    let paragraph = Paragraph::from(key::paragraph(keys[0]));
    let method = paragraph.method(algorithm);
    let total = sizes_of(keys, sizes);
    let setter = needs(book, keys, method, minimums);
    let amounts = Amounts {
        total,
        left: incoming.size,
        lot,
    };
    dividing::divide(method, sizes, minimums, setter, amounts, gets);
    credit::credit(keys, gets, from, algorithm, fills, shown, hidden)
}
