// A row of the ladder: what the orders of a side at a price come to.
ghost use Rattle.std.specs.Prelude.{◌≡◌, ◌+◌, ◌^◌, ◌<◌};
ghost use Rattle.ladder.specs.Row.{encode_row};
ghost use Rattle.ladder.specs.Rows.{same_level, row_of, joined};

use orders::order::{Order, Side};
use record::bytes;
use units::{Price, Shares};

// How many bytes a row has.
pub const ROW_BYTES: usize = 24;

// The displayed and the other shares of its orders, and their number.
#[derive(Clone, Copy)]
pub struct Row {
    pub side: Side,
    pub price: Price,
    pub displayed: Shares,
    pub other: Shares,
    pub orders: u32,
}

// The row of one order alone.
#[tactic(auto, using(units::proofs::Facts::shares_are), unfolding(crate::specs::Rows::row_of))]
pub(crate) fn row_of(order: Order) -> Row
    ensures { result ≡ row_of order }
{
    let side = order.side;
    let price = order.price;
    let displayed = order.displayed();
    let other = order.non_displayed();
    Row {
        side,
        price,
        displayed,
        other,
        orders: 1,
    }
}

// Whether two rows are of one side and price.
pub(crate) fn same_level(a: Row, b: Row) -> bool
    ensures { result ≡ same_level a b }
{
    (a.side == b.side) & (a.price == b.price)
}

// Two rows of one side and price as one.
#[tactic(auto, using(units::proofs::Facts::shares_are), unfolding(crate::specs::Rows::joined))]
pub(crate) fn joined(a: Row, b: Row) -> Row
    requires { (a.displayed.0 + b.displayed.0 < 2 ^ 32)
        × (a.other.0 + b.other.0 < 2 ^ 32)
        × (a.orders + b.orders < 2 ^ 32) }
    ensures { result ≡ joined a b }
{
    let side = a.side;
    let price = a.price;
    let d = a.displayed;
    let o = a.other;
    Row {
        side,
        price,
        displayed: units::sum(d, b.displayed),
        other: units::sum(o, b.other),
        orders: a.orders + b.orders,
    }
}

// The row's 24 bytes.
#[tactic(auto, using(record::proofs::Rows::side_byte), unfolding(record::specs::Codec::encode))]
pub(crate) fn bytes_of(row: Row) -> [u8; 24]
    ensures { result ≡ encode_row row }
{
    let side = row.side;
    let s = u8::from(side);
    let p = bytes::u32_bytes(row.price.0);
    let d = bytes::u32_bytes(row.displayed.0);
    let o = bytes::u32_bytes(row.other.0);
    let n = bytes::u32_bytes(row.orders);
    [
        0x4c, 0x44, s, 0, p[0], p[1], p[2], p[3], d[0], d[1], d[2], d[3], o[0], o[1], o[2], o[3],
        n[0], n[1], 0, 0, 0, 0, 0, 0,
    ]
}
