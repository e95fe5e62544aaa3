// The calls that enter and reduce resting orders. Each decides by value, from bytes that it only reads, and then writes what was decided.
#![tactic(auto)]

pub mod admission;
pub mod reduction;

ghost use Rattle.std.specs.Prelude.{◌≡◌, true, ◌&&◌, length};
ghost use Rattle.orders.specs.Order.{number_in_range, shares_in_range, security_in_range};
ghost use Rattle.book.specs.Sound.{sound, orders_of};
ghost use Rattle.book.specs.Answer.{number_in};
ghost use Rattle.entry.specs.Add.{request_in_range, add_call};
ghost use Rattle.entry.specs.Reduce.{reduce_call};

use admission::AddRequest;
use book::records;
use book::refusal::Refusal;
use reduction::Reduction;

// An add that is checked: its numbers are in range, and the book is sound and n of its records are in use.
pub fn add_checked(book: &mut [u8], n: usize, request: AddRequest) -> Result<(), Refusal>
    requires { (request_in_range request ≡ true) × (sound book.old ≡ true) × (n ≡ length (orders_of book.old)) }
    ensures refused { number_in result ≡ (add_call request book.old).refusal }
    ensures bytes { book.new ≡ (add_call request book.old).book }
    ensures kept_sound { number_in result ≡ 0 → sound book.new ≡ true }
{
    let (start, order) = admission::decide(book, n, request)?;
    records::write_order(book, start, order);
    Ok(())
}

// An order is put last in the book. The numbers may have any value.
#[tactic(auto, using(crate::proofs::AddPlan::add_range))]
pub fn add(book: &mut [u8], request: AddRequest) -> Result<(), Refusal>
    ensures refused { number_in result ≡ (add_call request book.old).refusal }
    ensures bytes { book.new ≡ (add_call request book.old).book }
    ensures kept_sound { number_in result ≡ 0 → sound book.new ≡ true }
{
    if !admission::in_range(request) {
        return Err(Refusal::OutOfRange);
    }
    let n = lookup::occupancy(book)?;
    add_checked(book, n, request)
}

// A reduce that is checked: its numbers are in range, and the book is sound and n of its records are in use.
pub fn reduce_checked(
    book: &mut [u8],
    n: usize,
    security: u32,
    number: u32,
    shares: u32,
) -> Result<(), Refusal>
    requires { ((security_in_range security && number_in_range number && shares_in_range shares) ≡ true) × (sound book.old ≡ true) × (n ≡ length (orders_of book.old)) }
    ensures refused { number_in result ≡ (reduce_call security number shares book.old).refusal }
    ensures bytes { book.new ≡ (reduce_call security number shares book.old).book }
    ensures kept_sound { number_in result ≡ 0 → sound book.new ≡ true }
{
    let reduction = reduction::decide(book, n, security, number, shares)?;
    match reduction {
        Reduction::Kept(start, order) => records::write_order(book, start, order),
        Reduction::Gone(start) => records::remove(book, start),
    }
    Ok(())
}

// The security's order of this number loses shares; without any it leaves the book. The numbers may have any value.
pub fn reduce(book: &mut [u8], security: u32, number: u32, shares: u32) -> Result<(), Refusal>
    ensures refused { number_in result ≡ (reduce_call security number shares book.old).refusal }
    ensures bytes { book.new ≡ (reduce_call security number shares book.old).book }
    ensures kept_sound { number_in result ≡ 0 → sound book.new ≡ true }
{
    if !reduction::in_range(security, number, shares) {
        return Err(Refusal::OutOfRange);
    }
    let n = lookup::occupancy(book)?;
    reduce_checked(book, n, security, number, shares)
}
