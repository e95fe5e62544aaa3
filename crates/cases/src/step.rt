// The calls that a case makes, with the numbers of the C interface.
use crate::report;
use book::refusal::number_in;
use entry::admission::AddRequest;
use matching::{TakeRequest, Taken};
use std::io;

pub(crate) const BUY: u32 = 1;

pub(crate) const SELL: u32 = 2;

const DISPLAYED: u32 = 1;

const NON_DISPLAYED: u32 = 2;

const MINIMUM_QUANTITY: u32 = 3;

const RESERVE: u32 = 4;

pub(crate) const PRICE_TIME: u32 = 1;

pub(crate) const PRO_RATA: u32 = 2;

pub(crate) const PRICE_SETTER: u32 = 3;

const PRICE: u32 = 100_000;

#[derive(Clone, Copy)]
pub(crate) enum Step {
    Add(AddRequest),
    Reduce {
        security: u32,
        number: u32,
        shares: u32,
    },
    Take(TakeRequest),
    // What check says of the book, and its orders.
    Show,
}

// A displayed sell at 100000 of the first security.
fn sell(number: u32, size: u32) -> AddRequest {
    AddRequest {
        side: SELL,
        kind: DISPLAYED,
        number,
        price: PRICE,
        size,
        minimum: 0,
        hidden: 0,
        refresh: 0,
        security: 0,
    }
}

pub(crate) fn displayed(number: u32, size: u32) -> Step {
    Step::Add(sell(number, size))
}

pub(crate) fn non_displayed(number: u32, size: u32) -> Step {
    Step::Add(AddRequest {
        kind: NON_DISPLAYED,
        ..sell(number, size)
    })
}

pub(crate) fn minimum_quantity(number: u32, size: u32, minimum: u32) -> Step {
    Step::Add(AddRequest {
        kind: MINIMUM_QUANTITY,
        minimum,
        ..sell(number, size)
    })
}

// A reserve order is refreshed to what it shows.
pub(crate) fn reserve(side: u32, number: u32, shown: u32, hidden: u32) -> Step {
    Step::Add(AddRequest {
        side,
        kind: RESERVE,
        hidden,
        refresh: shown,
        ..sell(number, shown)
    })
}

// A displayed order of a security.
pub(crate) fn displayed_for(security: u32, side: u32, number: u32, price: u32, size: u32) -> Step {
    Step::Add(AddRequest {
        side,
        price,
        security,
        ..sell(number, size)
    })
}

pub(crate) fn reduce(security: u32, number: u32, shares: u32) -> Step {
    Step::Reduce {
        security,
        number,
        shares,
    }
}

// An incoming buy at 100000.
pub(crate) fn buy_for(security: u32, size: u32, algorithm: u32) -> Step {
    Step::Take(TakeRequest {
        side: BUY,
        limit: PRICE,
        size,
        algorithm,
        security,
    })
}

pub(crate) fn buy(size: u32, algorithm: u32) -> Step {
    buy_for(0, size, algorithm)
}

impl Step {
    // The call is made on a book, and what it answers printed.
    pub(crate) fn run(self, rt: &impl Print, book: &mut [u8]) -> io::Result<()> {
        match self {
            Step::Add(request) => {
                let refusal = number_in(entry::add(book, request));
                println!(rt; "add {} refusal {refusal}", request.number)
            }
            Step::Reduce {
                security,
                number,
                shares,
            } => {
                let refusal = number_in(entry::reduce(book, security, number, shares));
                println!(rt; "reduce {number} {shares} refusal {refusal}")
            }
            Step::Take(request) => incoming(rt, book, request),
            Step::Show => report::book(rt, book),
        }
    }
}

// An incoming order, its executions, and the book afterwards. The execution buffer has bytes 7 at first; those behind the executions stay.
fn incoming(rt: &impl Print, book: &mut [u8], request: TakeRequest) -> io::Result<()> {
    let mut executions = [7u8; 80];
    report::call(rt, request)?;
    let taken = Taken::from(take::take(book, &mut executions, request));
    report::answer(rt, taken, &executions)?;
    report::book(rt, book)
}
