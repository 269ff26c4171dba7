// What a gateway's host calls: numbers and byte slices only. C hosts call it by crates/gateway_c.
#![tactic(auto)]

ghost use Rattle.report_brief.specs.Brief.{six_lines};
ghost use Rattle.gateway.specs.Collecting.{collect_code};
ghost use Rattle.gateway.specs.Entry.{code_by, entry_code, out_of};
ghost use Rattle.reader.specs.Reader.{read_of};
ghost use Rattle.transfer.specs.Collect.{taken_of, room_after};
ghost use Rattle.transfer.specs.Said.{heard_by};
ghost use Rattle.transfer.specs.States.{collector_in, state_of};
ghost use Rattle.writer_form.specs.Written.{file_of};
ghost use Rattle.std.specs.Option.{ForSome};
ghost use Rattle.std.specs.Prelude.{◌<◌, ◌≤◌, length, ◌≡◌};
ghost use Rattle.std.specs.Result.{ForOk};

use layout::fields;
use record::at;
use refusal::Refusal;
use transfer::{Whole, state};

// A length, or a refusal, as one number.
fn code_of(answer: Result<usize, Refusal>) -> u32
    requires { code_by answer < 4294967296 }
    ensures { result ≡ code_by answer }
{
    match answer {
        Ok(length) => length as u32,
        Err(e) => e.number() as u32 * 65536 + e.detail() as u32,
    }
}

// The six lines of a file's record, written into out.
fn write_lines(
    ca: u32,
    ioa: u32,
    plan: &[u8],
    file: &[u8],
    out: &mut [u8],
) -> Result<usize, Refusal>
    ensures told { (code_by result ≡ entry_code six_lines (read_of ca ioa plan.now file.now) (length out.old))
        × (out.new ≡ out_of six_lines (read_of ca ioa plan.now file.now) out.old) }
    ensures small { code_by result < 4294967296 }
{
    let x = reader::judged(ca, ioa, plan, file)?;
    let told = report_brief::of_reading(
        x.layout,
        x.cells[at::IDENTIFIER],
        x.cells[at::UNIT],
        text_room::keep(reader_fill::text_at(x.layout, file, x.places, fields::UNIT)),
        x.cells[at::START],
        x.cells[fields::end_field(x.layout) - 1],
    );
    report_brief::write_lines(out, told)
}

// Reads a file at an address of a plan, and writes the six lines of its record into out.
pub fn halimpung_read(ca: u32, ioa: u32, plan: &[u8], file: &[u8], out: &mut [u8]) -> u32
    ensures { (result ≡ entry_code six_lines (read_of ca ioa plan.now file.now) (length out.old))
        × (out.new ≡ out_of six_lines (read_of ca ioa plan.now file.now) out.old) }
{
    code_of(write_lines(ca, ioa, plan, file, out))
}

// Brings a file to the written form of its record, and writes that into out.
pub fn halimpung_normalise(ca: u32, ioa: u32, plan: &[u8], file: &[u8], out: &mut [u8]) -> u32
    ensures { (result ≡ entry_code file_of (read_of ca ioa plan.now file.now) (length out.old))
        × (out.new ≡ out_of file_of (read_of ca ioa plan.now file.now) out.old) }
{
    code_of(writer::normalise(ca, ioa, plan, file, out))
}

// What the host is told of a unit: 0 where the file is not whole yet, its length, or a refusal.
fn code_of_heard(heard: Result<Option<Whole>, Refusal>) -> u32
    requires { ForOk heard (λ o. ForSome o (λ w. w.size ≤ 8192)) }
    ensures { result ≡ collect_code (heard_by heard) }
{
    match heard {
        Ok(None) => 0,
        Ok(Some(whole)) => whole.size as u32,
        Err(e) => e.number() as u32 * 65536,
    }
}

// Takes one unit of a file transfer. The host keeps the 16 bytes of the state between two units, all zero at first, and lends the file's 8,192 bytes.
pub fn halimpung_collect(unit: &[u8], state: &mut [u8; 16], file: &mut [u8; 8192]) -> u32
    ensures { (result ≡ collect_code (taken_of (collector_in state.old) unit.now file.old).heard)
        × (state.new ≡ state_of (taken_of (collector_in state.old) unit.now file.old).collector)
        × (file.new ≡ room_after (collector_in state.old) unit.now file.old) }
{
    let c = state::collector_in(state);
    let taken = c.take(unit, file);
    // Before the state is written: each answer's number is then known where the answer is made, and no test is left to run.
    let code = code_of_heard(taken.heard);
    *state = state::state_of(taken.collector);
    code
}
