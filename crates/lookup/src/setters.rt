// Setter marks: at most one per security, side and price. Marked orders are compared with each other alone, by a key gathered from each once.
ghost use Rattle.std.specs.Prelude.{◌≡◌, true, ◌*◌, ◌≤◌, eqb, length};
ghost use Rattle.units.specs.Lists.{all, any};
ghost use Rattle.book.specs.Sound.{setters_sound, first_orders};
ghost use Rattle.lookup.specs.Setters.{setter_key, has_security, marked_in};

use book::records;
use orders::order::Order;
use record::order_record;

// One number for an order's security, side and price.
fn key_of(order: Order) -> u64
    ensures { result ≡ setter_key order }
{
    let side = order.side;
    let price = order.price;
    8 * (price.0 as u64) + 4 * (order.security as u64) + u64::from(u8::from(side))
}

// Whether one of the keys is this one.
fn contains(keys: &[u64], key: u64) -> bool
    ensures { result ≡ any (eqb key) keys.now }
{
    keys.iter().fold(false, |found, k| found | (key == *k))
}

// How many of the first n orders are marked.
#[tactic(auto, using(crate::proofs::Counting::counted))]
fn count_marked(book: &[u8], n: usize) -> usize
    requires { 40 * n ≤ length book.now }
    ensures { result ≡ marked_in (first_orders n book.now) }
{
    records::first(book, n)
        .iter()
        .filter(|rec| order_record::read(*rec).setter)
        .count()
}

// Whether no two of the first n orders, of securities that there are, are marked at one security, side and price: by the key of each marked
// order and those of the ones before it.
fn are_apart_by_key(book: &[u8], n: usize) -> bool
    requires { (40 * n ≤ length book.now) × (n ≤ 256) }
    ensures { all has_security (first_orders n book.now) ≡ true → result ≡ setters_sound (first_orders n book.now) }
{
    let mut keys = [0; 256];
    let mut marked = 0;
    for rec in records::first(book, n) {
        let order = order_record::read(rec);
        if order.setter {
            let key = key_of(order);
            if contains(&keys[..marked], key) {
                return false;
            }
            keys[marked] = key;
            marked += 1;
        }
    }
    true
}

// The same, without a comparison where fewer than two are marked.
#[tactic(auto, using(crate::proofs::Counting::few_apart))]
pub(crate) fn are_apart(book: &[u8], n: usize) -> bool
    requires { (40 * n ≤ length book.now) × (n ≤ 256) }
    ensures { all has_security (first_orders n book.now) ≡ true → result ≡ setters_sound (first_orders n book.now) }
{
    if count_marked(book, n) < 2 {
        true
    } else {
        are_apart_by_key(book, n)
    }
}
