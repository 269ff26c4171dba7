// Whether a call is fit for a book: the book is not malformed, and the message is one for it.
ghost use Rattle.book.specs.Places.{formed_unit, unfit_in};
ghost use Rattle.refusal.specs.Results.{number_in, detail_in};
ghost use Rattle.std.specs.Prelude.{take, ◌≡◌};

use record::Record;
use refusal::Refusal;
use text::scan;

// The unit's code is good, and its unused room is zero.
pub fn is_formed_unit(size: usize, unit: &[u8]) -> bool
    ensures { result ≡ formed_unit size unit.now }
{
    if 16 < size {
        return false;
    }
    value_name::unit::is_unit(scan::front(unit, size)) & scan::are_zero(scan::rest(unit, size))
}

// Whether the message alone is refused: 12, 29 where its layout is not one of the call's, 21.
pub fn unfit(size: usize, unit: [u8; 16], r: Record, right: bool) -> Result<(), Refusal>
    ensures { (number_in result ≡ unfit_in right (take size unit) r) × (detail_in result ≡ 0) }
{
    if !record_check::is_valid(r) {
        return Err(Refusal::InvalidRecord);
    }
    if !right {
        return Err(Refusal::WrongType);
    }
    let told = report_brief::of_record(r);
    let theirs = told.unit;
    if !scan::same(scan::front(&theirs, told.size), scan::front(&unit, size)) {
        return Err(Refusal::NotTheBooksUnit);
    }
    Ok(())
}
