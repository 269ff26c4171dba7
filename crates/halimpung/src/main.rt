// The program of document 01: the plan from plan.txt, the address and the file from standard input, six lines or a refusal to standard output.
#![tactic(auto)]

ghost use Rattle.halimpung.specs.Plan.{as_read};
ghost use Rattle.report.specs.Program.{printed_of};
ghost use Rattle.std.specs.Prelude.{◌≡◌};

use std::fs::File;
use std::io::{self, ErrorKind, Read};
use std::rt::Files;
use text::scan;

// How many bytes of a text are read at most: more than any has that is not refused. A plan of 64 rows has at most 3,328 bytes, a file 8,192.
const MOST: u64 = 65536;

// Room for what is printed: a record's six lines with a unit of sixteen bytes and numbers of ten digits have as much, and nothing has more.
const ROOM: usize = 89;

// Reads the plan, and says whether it could be opened. Where it cannot be read to its end, what was read is taken for the plan. A want of memory is
// no fault of the plan: it ends the program, with no answer.
fn read_plan<R: Files>(files: &R, plan: &mut Vec<u8>) -> io::Result<bool> {
    let Ok(file) = File::open(files, "plan.txt") else {
        return Ok(false);
    };
    match file.take(MOST).read_to_end(plan) {
        Ok(_) => Ok(true),
        Err(e) if e.kind() == ErrorKind::OutOfMemory => Err(e),
        Err(_) => Ok(true),
    }
}

fn as_read(readable: bool, plan: &[u8]) -> &[u8]
    ensures { result.now ≡ as_read readable plan.now }
{
    if readable { plan } else { &[] }
}

// What is printed, which stands at the front of the room.
fn printed<'a>(room: &'a mut [u8; ROOM], readable: bool, plan: &[u8], input: &[u8]) -> &'a [u8]
    ensures { result.now ≡ printed_of (as_read readable plan.now) input.now }
{
    let answer = report::hear(as_read(readable, plan), input);
    let size = report::put_answer(room, 0, report::told(answer));
    scan::front(room, size)
}

fn main(rt: HostRuntime) -> io::Result<()> {
    let mut plan = Vec::new(rt.alloc());
    let readable = read_plan(&rt, &mut plan)?;
    let mut input = Vec::new(rt.alloc());
    rt.stdin().take(MOST).read_to_end(&mut input)?;
    let mut room = [0; ROOM];
    rt.write_all(printed(&mut room, readable, &plan, &input))
}
