// The visibility of a part, by its paragraph.
ghost use Rattle.std.specs.Prelude.{◌≡◌};
ghost use Rattle.parts.specs.Visible.{last_shown};

use matching::Algorithm;

// The number of the last paragraph in whose group displayed shares stand.
pub fn last_shown(algorithm: Algorithm) -> u8
    ensures { result ≡ last_shown algorithm }
{
    match algorithm {
        Algorithm::PriceTime => 2,
        Algorithm::ProRata => 3,
        Algorithm::PriceSetter => 3,
    }
}
