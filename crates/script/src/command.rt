// Which command a line is.
ghost use Rattle.std.specs.Prelude.{◌≡◌, cond, true, false, length, MatchOption};
ghost use Rattle.units.specs.Lists.{in_range};
ghost use Rattle.script.specs.Text.{fields_of};
ghost use Rattle.script.specs.Command.{fits, values_of, readings, command_of};

use crate::field::Field;
use crate::field::Field::{Kind, Letter, Number, Side};

// A command to a book, its numbers as they stand in the line; side and kind are the C interface's, which take and add are given.
#[derive(Clone, Copy)]
pub enum Command {
    Choose(u32),
    Add {
        side: u32,
        kind: u32,
        number: u32,
        price: u32,
        size: u32,
        minimum: u32,
    },
    Reduce {
        number: u32,
        shares: u32,
    },
    Take {
        side: u32,
        limit: u32,
        size: u32,
    },
}

// A n sets the algorithm.
const CHOOSE: [Field; 2] = [Letter(b'A'), Number];

// B or S, number, D, H or M, price, size, minimum adds.
const ADD: [Field; 6] = [Side, Number, Kind, Number, Number, Number];

// X number shares reduces.
const REDUCE: [Field; 3] = [Letter(b'X'), Number, Number];

// T, B or S, limit, size takes.
const TAKE: [Field; 4] = [Letter(b'T'), Side, Number, Number];

// What the fields of a line stand for goes into values, where they are those of a form. The values are lent: the checker fails at a loop
// beside a closure in a function with a const parameter.
fn read_fields(form: &[Field], line: &[u8], values: &mut [u32]) -> Option<()>
    requires { length values.old ≡ length form.now }
    ensures { MatchOption result (fits form.now (fields_of line.now) ≡ false)
        (λ _. (fits form.now (fields_of line.now) ≡ true) × (values.new ≡ values_of form.now (fields_of line.now))) }
{
    let mut fields = line.split(|b| *b == b' ');
    for (i, place) in form.iter().enumerate() {
        values[i] = place.read(fields.next()?)?;
    }
    match fields.next() {
        None => Some(()),
        Some(_) => None,
    }
}

// What the fields of a line stand for, where they are those of a form.
fn read_as<const N: usize>(form: [Field; N], line: &[u8]) -> Option<[u32; N]>
    ensures { result ≡ readings form.entry (fields_of line.now) }
{
    let mut values = [0; N];
    read_fields(&form, line, &mut values)?;
    Some(values)
}

// The algorithm is one of 1 to 3.
fn choice(n: u32) -> Option<Command>
    ensures { result ≡ cond (in_range 1 3 n) (Some (Command.Choose n)) None }
{
    units::in_range(1, 3, n).then_some(Command::Choose(n))
}

// The command that a line is, whatever its bytes are.
#[tactic(auto, using(crate::proofs::Commands::taken, crate::proofs::Commands::passed), unfolding(crate::specs::Command::command_of))]
pub fn command_of(line: &[u8]) -> Option<Command>
    ensures { result ≡ command_of line.now }
{
    if let Some(values) = read_as(CHOOSE, line) {
        let [_, algorithm] = values;
        return choice(algorithm);
    }
    if let Some(values) = read_as(ADD, line) {
        let [side, number, kind, price, size, minimum] = values;
        return Some(Command::Add {
            side,
            kind,
            number,
            price,
            size,
            minimum,
        });
    }
    if let Some(values) = read_as(REDUCE, line) {
        let [_, number, shares] = values;
        return Some(Command::Reduce { number, shares });
    }
    let [_, side, limit, size] = read_as(TAKE, line)?;
    Some(Command::Take { side, limit, size })
}
