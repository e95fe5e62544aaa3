// Orders by their security: how many there are of one, and where the one of a number stands.
ghost use Rattle.std.specs.Prelude.{◌≡◌, ◌*◌, ◌≤◌, length};
ghost use Rattle.orders.specs.Trading.{of_security};
ghost use Rattle.book.specs.Sound.{first_orders};
ghost use Rattle.book.specs.Lookup.{place_of};
ghost use Rattle.lookup.specs.Setters.{count_of};

use book::records;
use record::order_record;

// How many of the first n orders are of the security.
pub(crate) fn count_of(book: &[u8], n: usize, security: u32) -> u32
    requires { (40 * n ≤ length book.now) × (n ≤ 256) }
    ensures { result ≡ count_of (of_security security) (first_orders n book.now) }
{
    records::first(book, n)
        .iter()
        .filter(|rec| order_record::read(*rec).security == security)
        .count() as u32
}

// How many of the first n orders stand before the security's order of this number.
pub(crate) fn place_of(book: &[u8], n: usize, security: u32, number: u32) -> usize
    requires { 40 * n ≤ length book.now }
    ensures { (result ≡ place_of security number (first_orders n book.now)) × (result ≤ n) }
{
    records::first(book, n)
        .iter()
        .position(|rec| {
            let order = order_record::read(rec);
            (order.security == security) & (order.number == number)
        })
        .unwrap_or(n)
}
