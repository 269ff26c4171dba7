// What is printed of a reading: six lines of a record, two of a refusal, and what the program answers to its input.
#![tactic(auto)]

ghost use Rattle.std.specs.Prelude.{◌+◌, ◌<◌, length, ◌≡◌};
ghost use Rattle.report_brief.specs.Brief.{six_lines};
ghost use Rattle.report.specs.Program.{heard_of, printed_of};
ghost use Rattle.report.specs.Report.{two_lines, told_as, told_lines};
ghost use Rattle.reader.specs.Said.{answer_by};
ghost use Rattle.text.specs.Puts.{limit, Puts};
ghost use Rattle.std.proofs.lemmas.List.Edits.{sets};

use record::Record;
use refusal::Refusal;

// The six lines of a record.
pub fn put_record(out: &mut [u8], at: usize, r: Record) -> usize
    requires { at + 200 < limit }
    ensures { Puts out.old at (six_lines r) result out.new }
{
    report_brief::put_lines(out, at, report_brief::of_record(r))
}

// The two lines of a refusal.
pub fn put_refusal(out: &mut [u8], at: usize, number: u8, detail: usize) -> usize
    requires { at + 200 < limit }
    ensures { Puts out.old at (two_lines number detail) result out.new }
{
    let a = text_keyline::put_number(out, at, b"result=", number as u64);
    text_keyline::put_number(out, a, b"detail=", detail as u64)
}

// An answer as it is told: a refusal by its number and its detail.
pub fn told(answer: Result<Record, Refusal>) -> Result<Record, (u8, usize)>
    ensures { result ≡ told_as answer }
{
    match answer {
        Ok(record) => Ok(record),
        Err(e) => Err((e.number(), e.detail())),
    }
}

// What is printed of an answer: of a record, or of a number and a detail, whatever they are.
pub fn put_answer(out: &mut [u8], at: usize, answer: Result<Record, (u8, usize)>) -> usize
    requires { at + 200 < limit }
    ensures { Puts out.old at (told_lines answer) result out.new }
{
    match answer {
        Ok(record) => put_record(out, at, record),
        Err((number, detail)) => put_refusal(out, at, number, detail),
    }
}

// The program's answer to its input: the address is in the first two lines, and the file follows. No plan has the address 0.
pub fn hear(plan: &[u8], input: &[u8]) -> Result<Record, Refusal>
    ensures { answer_by result ≡ heard_of plan.now input.now }
{
    let second = text_keyline::below(input);
    let file = text_keyline::below(second);
    let Some(ca) = text_keyline::number(b"ca=", 65534, input) else {
        return reader::read(0, 0, plan, file);
    };
    let Some(ioa) = text_keyline::number(b"ioa=", 16777215, second) else {
        return reader::read(0, 0, plan, file);
    };
    reader::read(ca as u32, ioa as u32, plan, file)
}

// What the program prints, as far as there is room for it; how long it is.
pub fn print(out: &mut [u8], plan: &[u8], input: &[u8]) -> usize
    ensures { (result ≡ length (printed_of plan.now input.now)) × (out.new ≡ sets out.old 0 (printed_of plan.now input.now)) }
{
    put_answer(out, 0, told(hear(plan, input)))
}
