// A book of orders in a lent buffer of records: what its calls answer, and its records one by one.
#![tactic(auto)]

pub mod records;
pub mod refusal;

ghost use Rattle.std.specs.Prelude.{◌≡◌};
ghost use Rattle.book.specs.Answer.{checked, found};

use records::RECORD_BYTES;
use refusal::Refusal;

// What check answers in C: its refusal, and how many orders a security has.
#[repr(C)]
#[derive(Clone, Copy)]
pub struct Checked {
    pub refusal: u32,
    pub orders: u32,
}

impl From<Result<u32, Refusal>> for Checked {
    ghost from_gives = { λ answer c. c ≡ checked answer };

    fn from(answer: Result<u32, Refusal>) -> Checked
        ensures { result ≡ checked answer }
    {
        match answer {
            Ok(orders) => Checked { refusal: 0, orders },
            Err(refusal) => Checked {
                refusal: refusal.into(),
                orders: 0,
            },
        }
    }
}

// What find answers in C: where the order's own record lies in the book.
#[repr(C)]
#[derive(Clone, Copy)]
pub struct Found {
    pub refusal: u32,
    pub start: usize,
    pub length: usize,
}

impl From<Result<usize, Refusal>> for Found {
    ghost from_gives = { λ answer f. f ≡ found answer };

    fn from(answer: Result<usize, Refusal>) -> Found
        ensures { result ≡ found answer }
    {
        match answer {
            Ok(start) => Found {
                refusal: 0,
                start,
                length: RECORD_BYTES,
            },
            Err(refusal) => Found {
                refusal: refusal.into(),
                start: 0,
                length: 0,
            },
        }
    }
}
