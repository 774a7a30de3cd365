// Levels: millimetres to centimetres on two-byte numbers in two's complement.
#![tactic(auto)]

ghost use Rattle.std.specs.Prelude.{◌≡◌};
ghost use Rattle.rules.specs.Numbers.{round_half_even};
ghost use Rattle.levels.specs.Levels.{rounded};

use std::cmp::Ordering;

// The nearest centimetre of millimetres from zero up; a half goes to the even neighbour.
fn round_half_even(millimetres: u16) -> u16
    ensures { result ≡ round_half_even millimetres }
{
    let whole = millimetres / 10;
    let rest = millimetres % 10;
    match rest.cmp(&5) {
        Ordering::Less => whole,
        Ordering::Equal => whole + whole % 2,
        Ordering::Greater => whole + 1,
    }
}

// The nearest centimetre of a level in millimetres; a half goes to the even neighbour, and minus a level gives minus what the level gives.
pub fn centimetres(level: u16) -> u16
    ensures { result ≡ rounded level }
{
    let millimetres = level.cast_signed();
    let nearest = round_half_even(millimetres.unsigned_abs());
    if millimetres.is_negative() {
        nearest.wrapping_neg()
    } else {
        nearest
    }
}
