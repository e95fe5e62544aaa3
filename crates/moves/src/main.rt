// How many records move when orders leave a full book, by the step that closes the gaps.
#![tactic(auto)]

ghost use Rattle.std.specs.Prelude.{◌≡◌, ◌≤◌, ◌<◌, length};

use book::records;
use book::records::RECORD_BYTES;
use book::refusal::number_in;
use orders::order::{Kind, Order, Side};
use std::io;
use units::{Price, Shares};

// What every order of the book has, and what one loses that leaves.
const SIZE: u32 = 300;

// A sell, of one security or the other by its number.
fn sell(number: u32) -> Order {
    Order {
        side: Side::Sell,
        kind: Kind::Displayed,
        number,
        price: Price(100_000),
        size: Shares(SIZE),
        setter: false,
        security: number % 2,
    }
}

// Sells 1 to 256, in a book with room for them.
fn fill(book: &mut [u8])
    requires { length book.old ≡ 10240 }
{
    for k in 0..256 {
        records::write_order(book, RECORD_BYTES * (k as usize), sell(k + 1));
    }
}

// Every so many orders, from a place on, lose so many shares.
fn lose(losses: &mut [u32; 256], from: usize, every: usize, shares: u32)
    requires { 0 < every }
{
    for loss in losses.iter_mut().skip(from).step_by(every) {
        *loss = shares;
    }
}

// A full book settled with these losses: which orders leave, the number of moves, and what check says of the book then.
fn settle(rt: &impl Print, words: &str, losses: &[u32; 256]) -> io::Result<()> {
    let mut space = [0u8; 10240];
    let book: &mut [u8] = &mut space;
    fill(book);
    let Ok(n) = lookup::occupancy(book) else {
        return Ok(());
    };
    let moves = settlement::settling::settle(book, n, losses, losses);
    let left = lookup::occupancy(book);
    let orders = left.unwrap_or(0);
    let refusal = number_in(left.map(|_| ()));
    println!(rt; "{words}: {moves} moves, {orders} orders, refusal {refusal}")
}

// Every so many orders leave, from a place on.
fn leaving(rt: &impl Print, words: &str, from: usize, every: usize) -> io::Result<()>
    requires { 0 < every }
{
    let mut losses = [0; 256];
    lose(&mut losses, from, every, SIZE);
    settle(rt, words, &losses)
}

// Orders filled in part, before the gap and behind it.
fn in_part(rt: &impl Print, words: &str) -> io::Result<()> {
    let mut losses = [0; 256];
    lose(&mut losses, 3, 7, 100);
    losses[100] = SIZE;
    settle(rt, words, &losses)
}

fn main(rt: HostRuntime) -> io::Result<()> {
    leaving(&rt, "every second leaves, from place 1 on", 1, 2)?;
    leaving(&rt, "every second leaves, from place 0 on", 0, 2)?;
    leaving(&rt, "the first alone leaves", 0, 256)?;
    leaving(&rt, "the last alone leaves", 255, 256)?;
    leaving(&rt, "none leaves", 256, 256)?;
    leaving(&rt, "all leave", 0, 1)?;
    in_part(
        &rt,
        "every seventh loses a part, and the one at place 100 leaves",
    )
}
