// The cases of the scope, those of reserve orders, and those of two securities in one book, run on lent bytes.
#![tactic(auto)]

mod report;
mod step;

use matching::TakeRequest;
use std::io;
use step::{
    BUY, PRICE_SETTER, PRICE_TIME, PRO_RATA, SELL, Step, buy, buy_for, displayed, displayed_for,
    minimum_quantity, non_displayed, reduce, reserve,
};

// The steps of a case, in a book with so many bytes.
fn case(rt: &impl Print, name: &str, book: &mut [u8], steps: &[Step]) -> io::Result<()> {
    println!(rt; "case {name}")?;
    for step in steps {
        step.run(rt, book)?;
    }
    Ok(())
}

// Cases a and b.
fn three_displayed(rt: &impl Print, name: &str, size: u32) -> io::Result<()> {
    let steps = [
        displayed(1, 600),
        displayed(2, 400),
        displayed(3, 300),
        buy(size, PRO_RATA),
    ];
    case(rt, name, &mut [0; 160], &steps)
}

// Cases c, d and e: order 2 sets the better price.
fn better_price(rt: &impl Print, name: &str, second: u32, third: u32, size: u32) -> io::Result<()> {
    let steps = [
        displayed_for(0, SELL, 1, 100_100, 1_000),
        displayed(2, second),
        displayed(3, third),
        displayed(4, 1_000),
        buy(size, PRICE_SETTER),
    ];
    case(rt, name, &mut [0; 160], &steps)
}

// Cases f, h, i and o.
fn two_displayed(
    rt: &impl Print,
    name: &str,
    first: u32,
    second: u32,
    size: u32,
    algorithm: u32,
) -> io::Result<()> {
    let steps = [
        displayed(1, first),
        displayed(2, second),
        buy(size, algorithm),
    ];
    case(rt, name, &mut [0; 160], &steps)
}

// Case g, and what plain sharing gives.
fn case_g(rt: &impl Print, algorithm: u32) -> io::Result<()> {
    let steps = [
        displayed(1, 300),
        displayed(2, 250),
        displayed(3, 250),
        displayed(4, 200),
        buy(500, algorithm),
    ];
    case(rt, "g", &mut [0; 160], &steps)
}

fn case_j(rt: &impl Print, size: u32) -> io::Result<()> {
    let steps = [
        minimum_quantity(1, 500, 400),
        minimum_quantity(2, 400, 300),
        buy(size, PRO_RATA),
    ];
    case(rt, "j", &mut [0; 160], &steps)
}

fn case_k(rt: &impl Print, algorithm: u32) -> io::Result<()> {
    let steps = [
        non_displayed(1, 50),
        minimum_quantity(2, 200, 200),
        buy(220, algorithm),
    ];
    case(rt, "k", &mut [0; 160], &steps)
}

fn case_l(rt: &impl Print) -> io::Result<()> {
    let steps = [
        minimum_quantity(1, 300, 300),
        non_displayed(2, 100),
        buy(150, PRICE_TIME),
    ];
    case(rt, "l", &mut [0; 160], &steps)
}

// A sell meets a buy above its limit.
fn case_m(rt: &impl Print) -> io::Result<()> {
    let steps = [
        displayed_for(0, BUY, 1, 100_000, 300),
        Step::Take(TakeRequest {
            side: SELL,
            limit: 90_000,
            size: 100,
            algorithm: PRICE_TIME,
            security: 0,
        }),
    ];
    case(rt, "m", &mut [0; 160], &steps)
}

// A book without room for any record.
fn case_n(rt: &impl Print, algorithm: u32) -> io::Result<()> {
    case(rt, "n", &mut [], &[buy(10, algorithm), displayed(1, 10)])
}

// A reserve order of 100 shown and 250 hidden beside a displayed one of 300: executed in both parts and refreshed, or filled whole.
fn both_parts(rt: &impl Print, size: u32) -> io::Result<()> {
    let steps = [
        reserve(SELL, 1, 100, 250),
        displayed(2, 300),
        buy(size, PRO_RATA),
    ];
    case(rt, "reserve, both parts", &mut [0; 160], &steps)
}

// Its hidden shares, fewer than a lot, come behind a non-displayed order of two.
fn hidden_odd_lot(rt: &impl Print) -> io::Result<()> {
    let steps = [
        reserve(SELL, 1, 100, 60),
        non_displayed(2, 200),
        buy(330, PRO_RATA),
    ];
    case(rt, "reserve, hidden below a lot", &mut [0; 160], &steps)
}

// Fewer shares are hidden than its refresh size: it shows them all, or none while it still shows one.
fn refreshed_to_less(rt: &impl Print, size: u32) -> io::Result<()> {
    let steps = [reserve(SELL, 1, 100, 30), buy(size, PRO_RATA)];
    case(
        rt,
        "reserve, less than the refresh size",
        &mut [0; 160],
        &steps,
    )
}

// It shows fewer shares than a lot and hides more.
fn shown_odd_lot(rt: &impl Print) -> io::Result<()> {
    let steps = [
        reserve(SELL, 1, 50, 150),
        displayed(2, 200),
        buy(260, PRO_RATA),
    ];
    case(rt, "reserve, shown below a lot", &mut [0; 160], &steps)
}

// Under price/time its hidden shares stand among the others by its number.
fn hidden_by_time(rt: &impl Print) -> io::Result<()> {
    let steps = [
        non_displayed(1, 50),
        reserve(SELL, 2, 100, 250),
        non_displayed(3, 70),
        buy(200, PRICE_TIME),
    ];
    case(rt, "reserve, price/time", &mut [0; 160], &steps)
}

// A price setter that is refreshed keeps its mark: the second buy gives it two fifths again.
fn setter_refreshed(rt: &impl Print) -> io::Result<()> {
    let steps = [
        reserve(SELL, 1, 100, 500),
        displayed(2, 900),
        buy(500, PRICE_SETTER),
        buy(200, PRICE_SETTER),
    ];
    case(rt, "reserve, price setter", &mut [0; 160], &steps)
}

// A buy of 600 in all could trade with a minimum of 550, one of 500 could not; then hidden shares are taken off first.
fn entered_and_reduced(rt: &impl Print) -> io::Result<()> {
    let steps = [
        minimum_quantity(1, 600, 550),
        reserve(BUY, 2, 100, 500),
        reserve(BUY, 2, 100, 400),
        Step::Show,
        reduce(0, 2, 501),
        reduce(0, 2, 420),
        Step::Show,
    ];
    case(rt, "reserve, add and reduce", &mut [0; 160], &steps)
}

fn reserve_cases(rt: &impl Print) -> io::Result<()> {
    both_parts(rt, 500)?;
    both_parts(rt, 650)?;
    hidden_odd_lot(rt)?;
    refreshed_to_less(rt, 100)?;
    refreshed_to_less(rt, 99)?;
    shown_odd_lot(rt)?;
    hidden_by_time(rt)?;
    setter_refreshed(rt)?;
    entered_and_reduced(rt)
}

// Sells of both at one price, a mark on each; then one's records are emptied between the other's, and the other's sells are taken from too.
fn interleaved(rt: &impl Print) -> io::Result<()> {
    let steps = [
        displayed_for(0, SELL, 1, 100_000, 300),
        displayed_for(1, SELL, 2, 100_000, 300),
        displayed_for(0, SELL, 3, 100_000, 200),
        displayed_for(1, SELL, 4, 100_000, 900),
        buy_for(0, 600, PRICE_SETTER),
        buy_for(1, 500, PRICE_SETTER),
    ];
    case(rt, "securities, interleaved", &mut [0; 160], &steps)
}

// Numbers rise over both, and room is the book's; a buy of one could trade with the sells of its own alone; no third security.
fn shared_book(rt: &impl Print) -> io::Result<()> {
    let steps = [
        displayed_for(1, SELL, 9, 100_000, 300),
        displayed_for(0, SELL, 8, 100_100, 300),
        displayed_for(0, BUY, 10, 100_100, 300),
        displayed_for(1, BUY, 11, 100_100, 300),
        displayed_for(2, BUY, 11, 100_100, 300),
        displayed_for(1, SELL, 11, 99_900, 300),
        displayed_for(0, BUY, 12, 100_200, 300),
        Step::Show,
        reduce(0, 9, 300),
        reduce(1, 10, 300),
        reduce(1, 9, 300),
        Step::Show,
    ];
    case(rt, "securities, add and reduce", &mut [0; 120], &steps)
}

fn displayed_cases(rt: &impl Print) -> io::Result<()> {
    three_displayed(rt, "a", 1_200)?;
    three_displayed(rt, "b", 80)?;
    better_price(rt, "c", 1_000, 3_000, 1_000)?;
    better_price(rt, "d", 3_000, 1_000, 1_000)?;
    better_price(rt, "e", 1_000, 3_000, 80)?;
    two_displayed(rt, "f", 150, 150, 290, PRO_RATA)?;
    case_g(rt, PRICE_SETTER)?;
    case_g(rt, PRO_RATA)?;
    two_displayed(rt, "h", 100, 900, 500, PRICE_SETTER)?;
    two_displayed(rt, "i", 99, 100, 100, PRO_RATA)?;
    two_displayed(rt, "i", 99, 100, 100, PRICE_TIME)
}

fn main(rt: HostRuntime) -> io::Result<()> {
    displayed_cases(&rt)?;
    case_j(&rt, 350)?;
    case_j(&rt, 299)?;
    case_k(&rt, PRO_RATA)?;
    case_k(&rt, PRICE_TIME)?;
    case_l(&rt)?;
    case_m(&rt)?;
    case_n(&rt, PRICE_TIME)?;
    case_n(&rt, PRO_RATA)?;
    case_n(&rt, PRICE_SETTER)?;
    two_displayed(&rt, "o", 300, 200, 80, PRICE_SETTER)?;
    reserve_cases(&rt)?;
    interleaved(&rt)?;
    shared_book(&rt)
}
