// What a shape takes: which words, and how many numbers.
ghost use Rattle.value_fits.specs.Fits.{first_word, last_word, numbers_fewest, numbers_most, is_among};
ghost use Rattle.std.specs.Prelude.{◌≡◌};

use value::Shape;
use value_word::names;

// The first word that a shape takes, and the last: from 1 to 0, so none, where it takes no word.
fn first_word(s: Shape) -> u8
    ensures { result ≡ first_word s }
{
    match s {
        Shape::IsWord(first, _) => first,
        Shape::IsVoltage => names::V_MAX,
        Shape::IsRegulator => names::V_MAX,
        Shape::IsReactive => names::Q_ZERO,
        _ => 1,
    }
}

fn last_word(s: Shape) -> u8
    ensures { result ≡ last_word s }
{
    match s {
        Shape::IsWord(_, last) => last,
        Shape::IsVoltage => names::V_MIN,
        Shape::IsRegulator => names::V_MIN,
        Shape::IsReactive => names::MAX_SOTTOECCITAZIONE,
        _ => 0,
    }
}

pub fn is_among(s: Shape, w: u8) -> bool
    ensures { result ≡ is_among s w }
{
    let first = first_word(s);
    let last = last_word(s);
    (1 <= first) & (first <= w) & (w <= last) & (last <= names::FINO_A_PMAX)
}

// How many numbers a shape takes at least, and at most: from 1 to 0, so none, where it takes no list of them.
pub fn fewest(s: Shape) -> u8
    ensures { result ≡ numbers_fewest s }
{
    match s {
        Shape::IsBands => 2,
        _ => 1,
    }
}

pub fn most(s: Shape) -> u8
    ensures { result ≡ numbers_most s }
{
    match s {
        Shape::IsProfile => 4,
        Shape::IsBands => 2,
        _ => 0,
    }
}
