// The static library for C hosts: the gateway's three calls under the names that host/include/halimpung.h declares, each with the call's own
// contract. A slice goes as a pointer and a length.
#![tactic(auto)]

ghost use Rattle.report_brief.specs.Brief.{six_lines};
ghost use Rattle.gateway.specs.Collecting.{collect_code};
ghost use Rattle.gateway.specs.Entry.{entry_code, out_of};
ghost use Rattle.reader.specs.Reader.{read_of};
ghost use Rattle.transfer.specs.Collect.{taken_of, room_after};
ghost use Rattle.transfer.specs.States.{collector_in, state_of};
ghost use Rattle.writer_form.specs.Written.{file_of};
ghost use Rattle.std.specs.Prelude.{length, ◌≡◌};

// Reads a file at an address of a plan, and writes the six lines of its record into out.
#[unsafe(no_mangle)]
pub extern "C" fn halimpung_read(ca: u32, ioa: u32, plan: &[u8], file: &[u8], out: &mut [u8]) -> u32
    ensures { (result ≡ entry_code six_lines (read_of ca ioa plan.now file.now) (length out.old))
        × (out.new ≡ out_of six_lines (read_of ca ioa plan.now file.now) out.old) }
{
    gateway::halimpung_read(ca, ioa, plan, file, out)
}

// Brings a file to the written form of its record, and writes that into out.
#[unsafe(no_mangle)]
pub extern "C" fn halimpung_normalise(
    ca: u32,
    ioa: u32,
    plan: &[u8],
    file: &[u8],
    out: &mut [u8],
) -> u32
    ensures { (result ≡ entry_code file_of (read_of ca ioa plan.now file.now) (length out.old))
        × (out.new ≡ out_of file_of (read_of ca ioa plan.now file.now) out.old) }
{
    gateway::halimpung_normalise(ca, ioa, plan, file, out)
}

// Takes one unit of a file transfer. The host keeps the 16 bytes of the state between two units, all zero at first, and lends the file's 8,192 bytes.
#[unsafe(no_mangle)]
pub extern "C" fn halimpung_collect(unit: &[u8], state: &mut [u8; 16], file: &mut [u8; 8192]) -> u32
    ensures { (result ≡ collect_code (taken_of (collector_in state.old) unit.now file.old).heard)
        × (state.new ≡ state_of (taken_of (collector_in state.old) unit.now file.old).collector)
        × (file.new ≡ room_after (collector_in state.old) unit.now file.old) }
{
    gateway::halimpung_collect(unit, state, file)
}
