// Taking: an incoming order against a book, under one of three algorithms.
#![tactic(auto)]

pub mod incoming;

ghost use Rattle.std.specs.Prelude.{◌≡◌};
ghost use Rattle.matching.specs.Answer.{taken};
ghost use Rattle.matching.specs.Paragraph.{algorithm_of, paragraph_number, pro_rata_method, method_of};
ghost use Rattle.matching.specs.Numbered.{paragraph_numbered};

use book::refusal::Refusal;
use sharing::{Method, Rank};
use units::Shares;

// The execution algorithms of Rule 3307. PriceSetter is pro rata with the variation for price-setting orders.
#[derive(Clone, Copy)]
pub enum Algorithm {
    PriceTime,
    ProRata,
    PriceSetter,
}

// The algorithm of a number: behind the second it is the last.
impl From<u32> for Algorithm {
    ghost from_gives = { λ number algorithm. algorithm ≡ algorithm_of number };

    fn from(number: u32) -> Algorithm
        ensures { result ≡ algorithm_of number }
    {
        match number {
            1 => Algorithm::PriceTime,
            2 => Algorithm::ProRata,
            _ => Algorithm::PriceSetter,
        }
    }
}

// The paragraphs of the rule that say who shares, in their order.
#[derive(Clone, Copy)]
pub enum Paragraph {
    Two,
    Three,
    Four,
    Five,
    Six,
}

// The paragraph of a number: below the first it is the first, and behind the last the last.
impl From<u8> for Paragraph {
    ghost from_gives = { λ number paragraph. paragraph ≡ paragraph_numbered number };

    fn from(number: u8) -> Paragraph
        ensures { result ≡ paragraph_numbered number }
    {
        match number {
            0..=2 => Paragraph::Two,
            3 => Paragraph::Three,
            4 => Paragraph::Four,
            5 => Paragraph::Five,
            _ => Paragraph::Six,
        }
    }
}

// A paragraph's number in the rule.
impl From<Paragraph> for u8 {
    ghost from_gives = { λ paragraph number. number ≡ paragraph_number paragraph };

    fn from(paragraph: Paragraph) -> u8
        ensures { result ≡ paragraph_number paragraph }
    {
        match paragraph {
            Paragraph::Two => 2,
            Paragraph::Three => 3,
            Paragraph::Four => 4,
            Paragraph::Five => 5,
            Paragraph::Six => 6,
        }
    }
}

impl Paragraph {
    // How its group shares under pro rata.
    fn pro_rata_method(self) -> Method
        ensures { result ≡ pro_rata_method self }
    {
        match self {
            Paragraph::Two => Method::Lots,
            Paragraph::Three => Method::InTurn(Rank::Size),
            Paragraph::Four => Method::Lots,
            Paragraph::Five => Method::InTurn(Rank::Minimum),
            Paragraph::Six => Method::InTurn(Rank::Size),
        }
    }

    // How its group shares under an algorithm. The price-setter variation changes paragraph 2.
    pub fn method(self, algorithm: Algorithm) -> Method
        ensures { result ≡ method_of algorithm self }
    {
        match (algorithm, self) {
            (Algorithm::PriceTime, _) => Method::InTurn(Rank::Time),
            (Algorithm::PriceSetter, Paragraph::Two) => Method::Setter,
            _ => self.pro_rata_method(),
        }
    }
}

// The numbers that take is given.
#[repr(C)]
#[derive(Clone, Copy)]
pub struct TakeRequest {
    pub side: u32,
    pub limit: u32,
    pub size: u32,
    pub algorithm: u32,
    pub security: u32,
}

// What an accepted take answers: how many executions it wrote, and the shares left.
#[derive(Clone, Copy)]
pub struct Filled {
    pub count: u32,
    pub left: Shares,
}

// What take answers in C: its refusal, and those numbers.
#[repr(C)]
#[derive(Clone, Copy)]
pub struct Taken {
    pub refusal: u32,
    pub count: u32,
    pub left: u32,
}

impl From<Result<Filled, Refusal>> for Taken {
    ghost from_gives = { λ answer t. t ≡ taken answer };

    fn from(answer: Result<Filled, Refusal>) -> Taken
        ensures { result ≡ taken answer }
    {
        match answer {
            Ok(filled) => {
                let left = filled.left;
                Taken {
                    refusal: 0,
                    count: filled.count,
                    left: left.0,
                }
            }
            Err(refusal) => Taken {
                refusal: refusal.into(),
                count: 0,
                left: 0,
            },
        }
    }
}
