// Triples in their room of sixteen.
ghost use Rattle.std.specs.Prelude.{◌≤◌, take, drop, ◌≡◌};
ghost use Rattle.value_fits.specs.Fits.{is_ranged, is_no_triple, are_triples};
ghost use Rattle.text.specs.Bytes.{all};

use crate::numbers;
use value_list::Triple;

fn is_ranged(x: Triple) -> bool
    ensures { result ≡ is_ranged x }
{
    value_bounds::is_amount(x.low)
        & value_bounds::is_amount(x.high)
        & value_bounds::is_amount(x.gradient)
}

fn is_no_triple(x: Triple) -> bool
    ensures { result ≡ is_no_triple x }
{
    (x.low == 0) & (x.high == 0) & (x.gradient == 0)
}

fn are_ranged(values: [Triple; 16], n: usize) -> bool
    requires { n ≤ 16 }
    ensures { result ≡ all is_ranged (take n values) }
{
    values[..n].iter().all(|x| is_ranged(*x))
}

// The triples from the place n on are zero.
pub fn are_none(values: [Triple; 16], n: usize) -> bool
    ensures { result ≡ all is_no_triple (drop n values) }
{
    values.iter().skip(n).all(|x| is_no_triple(*x))
}

pub fn are_listed(values: [Triple; 16], n: usize) -> bool
    ensures { result ≡ are_triples values n }
{
    if n < 1 || 16 < n {
        return false;
    }
    are_ranged(values, n) & are_none(values, n)
}
