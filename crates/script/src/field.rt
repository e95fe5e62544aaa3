// A field of a line, and what it stands for.
ghost use Rattle.std.specs.Prelude.{◌≡◌};
ghost use Rattle.script.specs.Field.{digits_from, number_in, meaning};

// What a command has in a place.
#[derive(Clone, Copy)]
pub enum Field {
    // This letter.
    Letter(u8),
    // B or S.
    Side,
    // D, H or M.
    Kind,
    Number,
}

// The number that digits stand for, if there is nothing else and no call's range is passed.
#[tactic(auto, using(crate::proofs::Digits::more, crate::proofs::Digits::stop, crate::proofs::Digits::past, crate::proofs::Digits::done))]
fn digits_in(field: &[u8]) -> Option<u32>
    ensures { result ≡ digits_from 0 field.now }
{
    let mut n: u32 = 0;
    for b in field {
        if !b.is_ascii_digit() {
            return None;
        }
        n = n.checked_mul(10)?.checked_add(u32::from(*b - b'0'))?;
    }
    Some(n)
}

// The number that a field is: one digit at least, and no leading zero.
#[tactic(auto, unfolding(crate::specs::Field::number_in))]
fn number_in(field: &[u8]) -> Option<u32>
    ensures { result ≡ number_in field.now }
{
    match field {
        [] | [b'0', _, ..] => None,
        _ => digits_in(field),
    }
}

impl Field {
    // What a field stands for where a command has this in its place.
    #[tactic(auto, unfolding(crate::specs::Field::meaning, crate::specs::Field::letter_or))]
    pub fn read(self, field: &[u8]) -> Option<u32>
        ensures { result ≡ meaning self field.now }
    {
        match (self, field) {
            (Field::Letter(letter), [b]) if *b == letter => Some(1),
            (Field::Side, b"B") => Some(1),
            (Field::Side, b"S") => Some(2),
            (Field::Kind, b"D") => Some(1),
            (Field::Kind, b"H") => Some(2),
            (Field::Kind, b"M") => Some(3),
            (Field::Number, _) => number_in(field),
            _ => None,
        }
    }
}
