// The refusals of all calls.
ghost use Rattle.std.specs.Prelude.{◌≡◌, ◌≤◌};
ghost use Rattle.book.specs.Answer.{number_of, number_in};

// Why a call is refused, by the names of the C interface.
#[derive(Clone, Copy, PartialEq, Eq)]
pub enum Refusal {
    // A number that the call is given is out of its range.
    OutOfRange,
    // The book isn't sound.
    UnsoundBook,
    // No order of the security has the number.
    UnknownNumber,
    // The number of a new order isn't above all others.
    StaleNumber,
    // A new order could trade.
    CouldTrade,
    // There is no free record.
    BookFull,
    // The order has fewer shares.
    TooManyShares,
    // The buffer is too small for the executions.
    SmallBuffer,
    // The ladder hasn't its length.
    LadderLength,
    // The ladder isn't the book's.
    OtherLadder,
    // The old form can't tell an order.
    NoOldForm,
    // The target is no book of its form, or has too few records.
    UnfitTarget,
}

// Its number.
impl From<Refusal> for u32 {
    ghost from_gives = { λ refusal number. number ≡ number_of refusal };

    fn from(refusal: Refusal) -> u32
        ensures { result ≡ number_of refusal }
    {
        match refusal {
            Refusal::OutOfRange => 1,
            Refusal::UnsoundBook => 2,
            Refusal::UnknownNumber => 3,
            Refusal::StaleNumber => 4,
            Refusal::CouldTrade => 5,
            Refusal::BookFull => 6,
            Refusal::TooManyShares => 7,
            Refusal::SmallBuffer => 8,
            Refusal::LadderLength => 9,
            Refusal::OtherLadder => 10,
            Refusal::NoOldForm => 11,
            Refusal::UnfitTarget => 12,
        }
    }
}

// What C is told of a call that answers with nothing else: 0, or the refusal's number.
pub fn number_in(answer: Result<(), Refusal>) -> u32
    ensures { result ≡ number_in answer }
{
    match answer {
        Ok(()) => 0,
        Err(refusal) => refusal.into(),
    }
}
