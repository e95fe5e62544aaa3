// Fillsheets: text whose lines are commands to a book. Knows nothing of books.
#![tactic(auto)]

pub mod command;
pub mod field;
pub mod text;
