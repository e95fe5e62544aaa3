// What a take answered and left, as text: every number is read back from the bytes of a buffer.
ghost use Rattle.std.specs.Prelude.{◌≤◌, length};

use book::records::RECORD_BYTES;
use book::{Checked, records};
use matching::{TakeRequest, Taken};
use record::bytes;
use record::execution::EXECUTION_BYTES;
use std::io;

// A number that every byte of a buffer has a part in, each at its own place.
fn digest(buffer: &[u8]) -> u32 {
    buffer.iter().fold(0u32, |sum, b| {
        ((257 * u64::from(sum) + u64::from(*b)) % 65_521) as u32
    })
}

// The numbers that a take is given.
pub(crate) fn call(rt: &impl Print, request: TakeRequest) -> io::Result<()> {
    let side = request.side;
    let limit = request.limit;
    let size = request.size;
    let algorithm = request.algorithm;
    println!(rt; "take side {side} limit {limit} size {size} algorithm {algorithm}")
}

// An execution's mark, paragraph, and the order's number, price and shares.
fn execution(rt: &impl Print, bytes: &[u8]) -> io::Result<()>
    requires { 16 ≤ length bytes.now }
{
    let paragraph = bytes[2];
    let number = bytes::read_u32(bytes, 4);
    let price = bytes::read_u32(bytes, 8);
    let shares = bytes::read_u32(bytes, 12);
    rt.write_all(&bytes[..2])?;
    println!(rt; " {paragraph} {number} {price} {shares}")
}

// What a take answered, and the executions that it left at a buffer's front, as many as are said to be there.
pub(crate) fn answer(rt: &impl Print, taken: Taken, buffer: &[u8]) -> io::Result<()> {
    let refusal = taken.refusal;
    let count = taken.count;
    let left = taken.left;
    println!(rt;
        "refusal {refusal} count {count} left {left} digest {}",
        digest(buffer)
    )?;
    for bytes in buffer.chunks_exact(EXECUTION_BYTES).take(count as usize) {
        execution(rt, bytes)?;
    }
    Ok(())
}

// A record's order: its mark, number, size, minimum, hidden shares, setter mark and security.
fn order(rt: &impl Print, record: &[u8]) -> io::Result<()>
    requires { 40 ≤ length record.now }
{
    let order = records::order_at(record, 0);
    let number = order.number;
    let size = order.size;
    let minimum = order.kind.minimum();
    let hidden = order.kind.hidden();
    let setter = u32::from(order.setter);
    let security = order.security;
    rt.write_all(&record[..2])?;
    println!(rt;
        " {number} {} {} {} {setter} {security}",
        size.0, minimum.0, hidden.0
    )
}

// What check says of a book for both securities, and its orders.
pub(crate) fn book(rt: &impl Print, book: &[u8]) -> io::Result<()> {
    let [first, second] = [0, 1].map(|security| Checked::from(lookup::check(book, security)));
    println!(rt;
        "check {} orders {} {} digest {}",
        first.refusal,
        first.orders,
        second.orders,
        digest(book)
    )?;
    for record in book.chunks_exact(RECORD_BYTES).take(lookup::occupied(book)) {
        order(rt, record)?;
    }
    Ok(())
}
