// A desk that a fillsheet's commands are given to: a book, a buffer for executions, and an algorithm.
#![tactic(auto)]

ghost use Rattle.std.specs.Prelude.{◌≡◌};
ghost use Rattle.book.specs.Answer.{numbered};
ghost use Rattle.desk.specs.Desk.{desk_of, performed};

use book::refusal::Refusal;
use entry::admission::AddRequest;
use matching::{Filled, TakeRequest};
use script::command::Command;

// A fillsheet trades in one security.
const SECURITY: u32 = 0;

// The algorithm is the number that a request for a take has.
#[derive(Drop)]
pub struct Desk<'a> {
    pub book: &'a mut [u8],
    pub executions: &'a mut [u8],
    pub algorithm: u32,
}

impl Desk<'_> {
    // A command is given to the desk; a line that is none is refused. Only an accepted take has something to list. The desk keeps the two
    // buffers that it was lent.
    pub fn perform(&mut self, command: Option<Command>) -> Result<Option<Filled>, Refusal>
        ensures answer { record { answer = numbered result; desk = desk_of self.new.book.now self.new.executions.now self.new.algorithm }
            ≡ performed command (desk_of self.old.book.now self.old.executions.now self.old.algorithm) }
        ensures same_book { self.new.book.ghost_name ≡ self.old.book.ghost_name }
        ensures same_executions { self.new.executions.ghost_name ≡ self.old.executions.ghost_name }
    {
        let Some(command) = command else {
            return Err(Refusal::OutOfRange);
        };
        match command {
            Command::Choose(algorithm) => {
                self.algorithm = algorithm;
                Ok(None)
            }
            Command::Add {
                side,
                kind,
                number,
                price,
                size,
                minimum,
            } => {
                let request = AddRequest {
                    side,
                    kind,
                    number,
                    price,
                    size,
                    minimum,
                    hidden: 0,
                    refresh: 0,
                    security: SECURITY,
                };
                entry::add(self.book, request)?;
                Ok(None)
            }
            Command::Reduce { number, shares } => {
                entry::reduce(self.book, SECURITY, number, shares)?;
                Ok(None)
            }
            Command::Take { side, limit, size } => {
                let request = TakeRequest {
                    side,
                    limit,
                    size,
                    algorithm: self.algorithm,
                    security: SECURITY,
                };
                let filled = take::take(self.book, self.executions, request)?;
                Ok(Some(filled))
            }
        }
    }
}
