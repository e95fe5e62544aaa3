// How one group of orders divides shares: definitions and laws, for any lot. Knows nothing of orders or bytes. The code is in the crate
// dividing.
#![tactic(auto)]

// Who has its turn first: the earlier, the larger, or the one of the smaller minimum; between equals the earlier.
#[derive(Clone, Copy)]
pub enum Rank {
    Time,
    Size,
    Minimum,
}

// How a group shares: in turn by a rank, by lots, or by lots with the price-setter variation.
#[derive(Clone, Copy)]
pub enum Method {
    InTurn(Rank),
    Lots,
    Setter,
}
