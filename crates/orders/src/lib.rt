// Orders as values, and which of them may trade. Knows nothing of bytes.
#![tactic(auto)]

pub mod order;
pub mod range;
pub mod trading;
