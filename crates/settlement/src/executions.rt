// The executions of a take, written.
ghost use Rattle.std.specs.Prelude.{◌≡◌, true, map, ◌*◌, ◌≤◌, ◌<◌, length};
ghost use Rattle.units.proofs.Members.{Every};
ghost use Rattle.book.specs.Sound.{sound, orders_of, order_at};
ghost use Rattle.matching.specs.TakeCall.{written};
ghost use Rattle.parts.specs.Key.{place_in};
ghost use Rattle.parts.specs.Execution.{execution_of};

use book::records;
use book::records::RECORD_BYTES;
use parts::key;
use record::execution::{EXECUTION_BYTES, Execution};
use record::{bytes, execution};

// The execution of a part with the shares that it got.
fn execution_of(book: &[u8], fill: u64) -> Execution
    requires { (sound book.now ≡ true) × (place_in fill < length (orders_of book.now)) }
    ensures { result ≡ execution_of (order_at book.now) fill }
{
    let order = records::order_at(book, RECORD_BYTES * key::place(fill));
    let price = order.price;
    Execution {
        number: order.number,
        price,
        shares: key::shares(fill),
        paragraph: key::paragraph(fill),
    }
}

// The executions of the fills go into a buffer, from its start.
#[tactic(auto, using(crate::proofs::Writing::writing_done))]
pub(crate) fn write(book: &[u8], fills: &[u64], executions: &mut [u8])
    requires { (sound book.now ≡ true)
        × Every (λ k. place_in k < length (orders_of book.now)) fills.now
        × (16 * length fills.now ≤ length executions.old) }
    ensures { executions.new ≡ written (map (execution_of (order_at book.now)) fills.now) executions.old }
{
    for (k, fill) in fills.iter().enumerate() {
        let bytes = execution::bytes_of(execution_of(book, *fill));
        bytes::put(executions, EXECUTION_BYTES * k, &bytes);
    }
}
