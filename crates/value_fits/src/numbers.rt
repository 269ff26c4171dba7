// Lists of up to four numbers.
ghost use Rattle.value_fits.specs.Fits.{is_spare, are_listed};
ghost use Rattle.std.specs.Prelude.{◌≡◌};

use value_list::Numbers;

// The place i of a list of `count` numbers: it can be written, and is zero where the list has ended.
fn is_spare(count: u8, i: u8, v: i32) -> bool
    ensures { result ≡ is_spare count i v }
{
    value_bounds::is_amount(v) & ((i < count) | (v == 0))
}

// A list of least to most numbers.
pub fn are_listed(x: Numbers, least: u8, most: u8) -> bool
    ensures { result ≡ are_listed least most x }
{
    let n = x.count;
    (least <= n)
        & (n <= most)
        & is_spare(n, 0, x.first)
        & is_spare(n, 1, x.second)
        & is_spare(n, 2, x.third)
        & is_spare(n, 3, x.fourth)
}
