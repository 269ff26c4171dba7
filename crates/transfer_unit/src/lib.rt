// File-transfer units, ASDUs of IEC 60870-5-101, as far as a file is collected from them (docs/UNITS.md). Octets count from 1, as in the standard.
#![tactic(auto)]

ghost use Rattle.std.specs.Prelude.{◌<◌, ◌≡◌};
ghost use Rattle.transfer_unit.specs.Units.{octet, three, ca_of, ioa_of, is_ours, file_ready, section_ready, segment, last_of, told_by};

// What a unit says: a length announced; the name of a section, and of a segment how many octets it brings, from the unit's 14th on; a checksum.
#[derive(Clone, Copy)]
pub enum Told {
    FileReady(u32),
    SectionReady(u8, u32),
    Segment(u8, u8),
    LastSegment(u8, u8),
    LastSection(u8, u8),
    Other,
}

// An octet, 0 where there is none: so no test has to ask for the length first.
fn octet(s: &[u8], k: usize) -> u8
    ensures { result ≡ octet s.now k }
{
    if k == 0 {
        return 0;
    }
    if s.len() < k {
        return 0;
    }
    s[k - 1]
}

fn three(s: &[u8], k: usize) -> u32
    requires { k < 16 }
    ensures { result ≡ three s.now k }
{
    let low = octet(s, k) as u32;
    let middle = octet(s, k + 1) as u32;
    let high = octet(s, k + 2) as u32;
    low + 256 * middle + 65536 * high
}

// The common address that a unit names.
pub fn ca_of(s: &[u8]) -> u32
    ensures { result ≡ ca_of s.now }
{
    let low = octet(s, 5) as u32;
    let high = octet(s, 6) as u32;
    low + 256 * high
}

// The information object address that a unit names.
pub fn ioa_of(s: &[u8]) -> u32
    ensures { result ≡ ioa_of s.now }
{
    three(s, 7)
}

// One object, cause 13, name of file 1.
fn is_ours(s: &[u8]) -> bool
    ensures { result ≡ is_ours s.now }
{
    (octet(s, 2) == 1) & (octet(s, 3) == 13) & (octet(s, 10) == 1) & (octet(s, 11) == 0)
}

fn file_ready(s: &[u8]) -> Told
    ensures { result ≡ file_ready s.now }
{
    if (s.len() == 15) & (octet(s, 15) == 0) {
        return Told::FileReady(three(s, 12));
    }
    Told::Other
}

fn section_ready(s: &[u8]) -> Told
    ensures { result ≡ section_ready s.now }
{
    if (s.len() == 16) & (octet(s, 16) == 0) {
        return Told::SectionReady(octet(s, 12), three(s, 13));
    }
    Told::Other
}

fn segment(s: &[u8]) -> Told
    ensures { result ≡ segment s.now }
{
    let n = octet(s, 13);
    if (1 <= n) & (s.len() == 13 + n as usize) {
        return Told::Segment(octet(s, 12), n);
    }
    Told::Other
}

fn last(s: &[u8]) -> Told
    ensures { result ≡ last_of s.now }
{
    if s.len() != 14 {
        return Told::Other;
    }
    let qualifier = octet(s, 13);
    match qualifier {
        3 => Told::LastSegment(octet(s, 12), octet(s, 14)),
        1 => Told::LastSection(octet(s, 12), octet(s, 14)),
        _ => Told::Other,
    }
}

// What a unit says, whatever its octets.
pub fn told_by(s: &[u8]) -> Told
    ensures { result ≡ told_by s.now }
{
    if !is_ours(s) {
        return Told::Other;
    }
    let kind = octet(s, 1);
    match kind {
        120 => file_ready(s),
        121 => section_ready(s),
        123 => last(s),
        125 => segment(s),
        _ => Told::Other,
    }
}
