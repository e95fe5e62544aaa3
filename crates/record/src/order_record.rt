// The record of an order in the new form, 40 bytes, both ways, and what makes one sound.
ghost use Rattle.std.specs.Prelude.{◌≡◌, length};
ghost use Rattle.orders.specs.Order.{interest, settled, is_resting};
ghost use Rattle.record.specs.Codec.{decode, has_mark};
ghost use Rattle.record.specs.Record.{new_form, numbers_of, encode_order, decode_order, record_sound};
ghost use Rattle.record.specs.Names.{named_numbers};

use crate::bytes;
use crate::form::NEW_MARK;
use orders::order::{Kind, Order, Side};
use orders::range;
use units::{Price, Shares};

// The numbers of a record that say its order. Numbers, and no enums: loops over many records test them without a branch.
#[derive(Clone, Copy)]
pub struct Numbers {
    pub side: u32,
    pub kind: u32,
    pub number: u32,
    pub price: u32,
    pub size: u32,
    pub minimum: u32,
    pub setter: u32,
    pub hidden: u32,
    pub refresh: u32,
    pub security: u32,
}

// They are read each at its own place.
#[tactic(auto, using(crate::proofs::Reading::from_one, crate::proofs::Reading::decode_at))]
pub fn numbers_of(rec: &[u8]) -> Numbers
    requires { length rec.now ≡ 40 }
    ensures { result ≡ named_numbers (decode new_form.layout rec.now) }
{
    Numbers {
        side: u32::from(rec[2]),
        kind: u32::from(rec[3]),
        number: bytes::read_u32(rec, 4),
        price: bytes::read_u32(rec, 8),
        size: bytes::read_u32(rec, 12),
        minimum: bytes::read_u32(rec, 16),
        setter: u32::from(rec[20]),
        hidden: bytes::read_u32(rec, 32),
        refresh: bytes::read_u32(rec, 36),
        security: u32::from(rec[21]),
    }
}

// The order that a record says.
#[tactic(auto, unfolding(crate::specs::Record::order_of))]
pub fn read(rec: &[u8]) -> Order
    requires { length rec.now ≡ 40 }
    ensures { result ≡ decode_order new_form rec.now }
{
    let n = numbers_of(rec);
    Order {
        side: Side::from(n.side),
        kind: Kind::of(n.kind, n.minimum, n.hidden, n.refresh),
        number: n.number,
        price: Price(n.price),
        size: Shares(n.size),
        setter: n.setter == 1,
        security: n.security,
    }
}

// Whether an order still rests after it lost displayed and non-displayed shares, by the numbers of its record.
pub fn rests_after(n: Numbers, shown: Shares, hidden: Shares) -> bool
    ensures { (o : Order) → n ≡ named_numbers (numbers_of o) → result ≡ is_resting (settled (interest shown.0 hidden.0) o) }
{
    if !Kind::is_displayed(n.kind) {
        return hidden.0 < n.size;
    }
    (shown.0 < n.size) | (hidden.0 < n.hidden)
}

// Whether the record begins with the mark of an order.
fn has_mark(rec: &[u8]) -> bool
    requires { length rec.now ≡ 40 }
    ensures { result ≡ has_mark new_form.layout rec.now }
{
    bytes::same(&rec[..2], &NEW_MARK)
}

// Whether the record is sound: the mark, each number in its range, a setter mark on kinds 1 and 4 alone, zeros in bytes 22 to 31, and
// hidden shares and a refresh size on kind 4 alone. All is read by four bytes, so that the compiler can test several records at once: side and
// kind are among the first four, the setter mark is the lowest of four bytes, and the others of these are the security with two zeros behind it.
#[tactic(auto, using(crate::proofs::Fours::sound_by_fours))]
pub fn is_sound(rec: &[u8]) -> bool
    requires { length rec.now ≡ 40 }
    ensures { result ≡ record_sound new_form rec.now }
{
    let head = bytes::read_u32(rec, 0);
    let kind = head / 16_777_216;
    let size = bytes::read_u32(rec, 12);
    let marks = bytes::read_u32(rec, 20);
    let setter = marks % 256;
    has_mark(rec)
        & units::in_range(1, 2, head / 65_536 % 256)
        & units::in_range(1, 4, kind)
        & range::number_in_range(bytes::read_u32(rec, 4))
        & range::price_in_range(bytes::read_u32(rec, 8))
        & range::shares_in_range(size)
        & range::minimum_in_range(kind, size, bytes::read_u32(rec, 16))
        & ((setter == 0) | ((setter == 1) & ((kind == 1) | (kind == 4))))
        & range::security_in_range(marks / 256)
        & (bytes::read_u32(rec, 24) == 0)
        & (bytes::read_u32(rec, 28) == 0)
        & range::reserve_in_range(kind, bytes::read_u32(rec, 32), bytes::read_u32(rec, 36))
}

// The record of an order.
#[tactic(auto, using(crate::proofs::Rows::side_byte, crate::proofs::Rows::kind_byte, crate::proofs::Rows::mark_byte), unfolding(crate::specs::Codec::encode, crate::specs::Record::numbers_of))]
pub fn bytes_of(order: Order) -> [u8; 40]
    ensures { result ≡ encode_order new_form order }
{
    let kind = order.kind;
    let s = u8::from(order.side);
    let k = kind.number();
    let n = bytes::u32_bytes(order.number);
    let p = bytes::u32_bytes(order.price.0);
    let z = bytes::u32_bytes(order.size.0);
    let m = bytes::u32_bytes(kind.minimum().0);
    let f = u8::from(order.setter);
    let h = bytes::u32_bytes(kind.hidden().0);
    let r = bytes::u32_bytes(kind.refresh().0);
    let c = bytes::u32_bytes(order.security);
    let mut rec = [
        0, 0, s, k, n[0], n[1], n[2], n[3], p[0], p[1], p[2], p[3], z[0], z[1], z[2], z[3], m[0],
        m[1], m[2], m[3], f, c[0], 0, 0, 0, 0, 0, 0, 0, 0, 0, 0, h[0], h[1], h[2], h[3], r[0],
        r[1], r[2], r[3],
    ];
    bytes::put(&mut rec, 0, &NEW_MARK);
    rec
}
