// Orders and executions as bytes. Knows nothing of books.
#![tactic(auto)]

pub mod bytes;
pub mod execution;
pub mod form;
pub mod order_record;
