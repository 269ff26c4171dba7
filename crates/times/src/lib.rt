// Start-up and ramp times: the part of the message file that holds the value or, where the message leaves it blank, that part of the unit sheet.
#![tactic(auto)]

ghost use Rattle.times.specs.Times.{field_no, time_of, part_in, StandsIn, time_refusal, time_by, refusal_by};
ghost use Rattle.std.specs.Prelude.{◌≡◌};

use layout::fields;
use refusal::Refusal;
use times_sheet::{Part, Which};

// Where the time stands: in the file or in the sheet.
#[derive(Clone, Copy, PartialEq, Eq, Debug)]
pub enum Time {
    InFile(Part),
    InSheet(Part),
}

// The field that holds it.
fn field_no(w: Which) -> usize
    ensures { result ≡ field_no w }
{
    match w {
        Which::StartUp => fields::START_UP,
        Which::Ramp => fields::RAMP,
    }
}

// Refusals in order: the reader's, 16, 14. The sheet is judged even where the message has the value.
pub fn locate(
    w: Which,
    ca: u32,
    ioa: u32,
    plan: &[u8],
    file: &[u8],
    sheet: &[u8],
) -> Result<Time, Refusal>
    ensures { time_by result ≡ time_of w ca ioa plan.now file.now sheet.now }
{
    let x = reader::judged(ca, ioa, plan, file)?;
    if !layout::is_market(x.layout) {
        return Err(Refusal::NotMarket);
    }
    if !times_sheet::is_for(
        reader_fill::text_at(x.layout, file, x.places, fields::UNIT),
        sheet,
    ) {
        return Err(Refusal::BadSheet);
    }
    let k = field_no(w);
    if value_ask::is_filled(record::field(x.cells, k)) {
        let p = x.places[k];
        return Ok(Time::InFile(Part {
            from: p.from as usize,
            to: p.to as usize,
        }));
    }
    Ok(Time::InSheet(times_sheet::time_part(w, sheet)))
}

// That part of the file or of the sheet; an empty part on refusal.
fn part_at<'a>(t: Result<Time, Refusal>, file: &'a [u8], sheet: &'a [u8]) -> &'a [u8]
    requires { StandsIn file.now sheet.now (time_by t) }
    ensures { result.now ≡ part_in (time_by t) file.now sheet.now }
{
    let Ok(time) = t else {
        return &file[0..0];
    };
    match time {
        Time::InFile(p) => &file[p.from..p.to],
        Time::InSheet(p) => &sheet[p.from..p.to],
    }
}

// The start-up time: a part of the file where the message has it, else of the sheet (which of the two, `locate` says).
pub fn start_up<'a>(ca: u32, ioa: u32, plan: &[u8], file: &'a [u8], sheet: &'a [u8]) -> &'a [u8]
    ensures { result.now ≡ part_in (time_of Which.StartUp ca ioa plan.now file.now sheet.now) file.now sheet.now }
{
    part_at(
        locate(Which::StartUp, ca, ioa, plan, file, sheet),
        file,
        sheet,
    )
}

// The ramp time, of the file or of the sheet likewise.
pub fn ramp<'a>(ca: u32, ioa: u32, plan: &[u8], file: &'a [u8], sheet: &'a [u8]) -> &'a [u8]
    ensures { result.now ≡ part_in (time_of Which.Ramp ca ioa plan.now file.now sheet.now) file.now sheet.now }
{
    part_at(locate(Which::Ramp, ca, ioa, plan, file, sheet), file, sheet)
}

// The companion of both: why a part is empty. No refusal depends on which time is asked for.
pub fn refusal_of(ca: u32, ioa: u32, plan: &[u8], file: &[u8], sheet: &[u8]) -> Option<Refusal>
    ensures { refusal_by result ≡ time_refusal (time_of Which.StartUp ca ioa plan.now file.now sheet.now) }
{
    locate(Which::StartUp, ca, ioa, plan, file, sheet).err()
}
