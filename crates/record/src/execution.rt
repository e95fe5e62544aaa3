// An execution of a resting order.
ghost use Rattle.std.specs.Prelude.{◌≡◌};
ghost use Rattle.record.specs.Execution.{encode_execution};

use crate::bytes;
use units::{Price, Shares};

// How many bytes an execution has.
pub const EXECUTION_BYTES: usize = 16;

// The resting order's number, its price, the shares executed, and the paragraph of the rule that gave them.
#[derive(Clone, Copy)]
pub struct Execution {
    pub number: u32,
    pub price: Price,
    pub shares: Shares,
    pub paragraph: u8,
}

// The execution's 16 bytes.
#[tactic(auto, unfolding(crate::specs::Codec::encode))]
pub fn bytes_of(execution: Execution) -> [u8; 16]
    ensures { result ≡ encode_execution execution }
{
    let n = bytes::u32_bytes(execution.number);
    let p = bytes::u32_bytes(execution.price.0);
    let s = bytes::u32_bytes(execution.shares.0);
    [
        0x45,
        0x58,
        execution.paragraph,
        0,
        n[0],
        n[1],
        n[2],
        n[3],
        p[0],
        p[1],
        p[2],
        p[3],
        s[0],
        s[1],
        s[2],
        s[3],
    ]
}
