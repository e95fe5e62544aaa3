// What a take has decided is written: its executions, and the book without the shares that its orders lost.
#![tactic(auto)]

mod executions;
pub mod settling;

ghost use Rattle.std.specs.Prelude.{◌≡◌, true, map, ◌*◌, ◌≤◌, ◌<◌, Ok, Err, length};
ghost use Rattle.units.specs.Lists.{filter, zip_with};
ghost use Rattle.units.proofs.Members.{Every};
ghost use Rattle.orders.specs.Order.{settled, is_resting};
ghost use Rattle.orders.specs.Losses.{losses_in};
ghost use Rattle.book.specs.declared.refusal.Refusal.TheVariants.{SmallBuffer};
ghost use Rattle.book.specs.Sound.{sound, orders_of, order_at, book_of, capacity_of};
ghost use Rattle.matching.specs.TakeCall.{written};
ghost use Rattle.parts.specs.Key.{place_in};
ghost use Rattle.parts.specs.Execution.{execution_of};

use book::refusal::Refusal;
use matching::Filled;
use record::execution::EXECUTION_BYTES;
use units::Shares;

// A take is made as it was decided: the executions of its fills go into a buffer, from its start, and each of the n orders loses what is
// allotted to it of its displayed and of its other shares. Where there is no room for the executions it is refused, and no byte changes.
pub fn commit(
    book: &mut [u8],
    executions: &mut [u8],
    n: usize,
    fills: &[u64],
    shown: &[u32],
    hidden: &[u32],
    left: Shares,
) -> Result<Filled, Refusal>
    requires { (sound book.old ≡ true)
        × (n ≡ length (orders_of book.old))
        × Every (λ k. place_in k < length (orders_of book.old)) fills.now
        × (length fills.now ≤ 512)
        × (n ≤ length shown.now)
        × (n ≤ length hidden.now) }
    ensures refused { length executions.old < 16 * length fills.now
        → (result ≡ Err SmallBuffer)
        × (book.new ≡ book.old)
        × (executions.new ≡ executions.old) }
    ensures made { 16 * length fills.now ≤ length executions.old
        → (result ≡ Ok (record { count = length fills.now; left = left }))
        × (book.new
        ≡ book_of (capacity_of book.old) (filter is_resting (zip_with settled (losses_in n shown.now hidden.now) (orders_of book.old))))
        × (executions.new ≡ written (map (execution_of (order_at book.old)) fills.now) executions.old) }
{
    let count = fills.len();
    if executions.len() / EXECUTION_BYTES < count {
        return Err(Refusal::SmallBuffer);
    }
    executions::write(book, fills, executions);
    settling::settle(book, n, shown, hidden);
    Ok(Filled {
        count: count as u32,
        left,
    })
}
