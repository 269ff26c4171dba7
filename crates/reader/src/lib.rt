// The reader: address, plan and file give the typed record, or one refusal with its detail and no record.
#![tactic(auto)]

ghost use Rattle.std.specs.Prelude.{◌≤◌, length, take, replicate, ◌≡◌};
ghost use Rattle.layout.specs.FieldNumbers.{unit_no, gradients_field};
ghost use Rattle.layout.specs.Layouts.{size_of, kinds_of};
ghost use Rattle.reader_fill.specs.Filled.{filled_of};
ghost use Rattle.record.specs.Records.{cell};
ghost use Rattle.record_rules.specs.Broken.{broken_number};
ghost use Rattle.value_list.specs.Forms.{gradients_in, counted_triples};
ghost use Rattle.layout.specs.Rows.{text_at, row_of};
ghost use Rattle.text_lines.specs.Places.{part_of, Placed};
ghost use Rattle.reader.specs.Reader.{read_of};
ghost use Rattle.reader.specs.Said.{answer_by, located_by, reading_by, verdict_by, filled_by};
ghost use Rattle.reader.specs.Readings.{reading_of};
ghost use Rattle.reader.specs.State.{placed_as, column_at, Walks, Locates, verdict, is_mfrr};
ghost use Rattle.text.specs.Bytes.{same};
ghost use Rattle.std.specs.Int.Count.{ones};

use layout::{Layout, fields};
use reader_walk::Marks;
use record::{Cell, Record, at};
use record_rules::Rule;
use refusal::Refusal;
use text::scan;
use text_lines::Span;
use value::Value;
use value_list::{Triple, triples};
use value_name::MessageType;

// Where a message's values stand: its layout, the plan's unit in the first `size` bytes of its room, and the places of its row and of its fields.
#[derive(Clone, Copy)]
pub struct Located {
    pub layout: Layout,
    pub size: usize,
    pub unit: [u8; 16],
    pub row: Span,
    pub places: [Span; 27],
}

// What is read of a message, with its texts left in the file: the layout, the cells and triples of its record, and the places of its row and of its fields.
#[derive(Clone, Copy)]
pub struct Reading {
    pub layout: Layout,
    pub row: Span,
    pub cells: [Cell; 26],
    pub gradients: [Triple; 16],
    pub places: [Span; 27],
}

const NOWHERE: Span = Span { from: 0, to: 0 };

// The bit of `Tipo Comando` among those of the fields that have a line.
const TIPO_COMANDO: u32 = at::TIPO_COMANDO as u32;

// Refusals 5 and 6: a label twice, and how many labels have no line, which is the layout's count of fields less the count of bits.
fn place(l: Layout, row: Span, m: Marks, places: [Span; 27]) -> Result<Located, Refusal>
    requires { ones m.seen ≤ size_of l }
    ensures { located_by result ≡ placed_as l row m places }
{
    if m.again != 0 {
        return Err(Refusal::LabelTwice(m.again));
    }
    let missing = layout::size(l) - u32::count_ones(m.seen) as usize;
    if missing != 0 {
        return Err(Refusal::LabelsMissing(missing));
    }
    Ok(Located {
        layout: l,
        size: 0,
        unit: [0; 16],
        row,
        places,
    })
}

// A CB file is the mFRR layout when `Tipo Comando` has a line.
fn is_mfrr(t: MessageType, m: Marks) -> bool
    ensures { result ≡ is_mfrr t m.seen }
{
    match t {
        MessageType::Cb => (m.seen >> TIPO_COMANDO) % 2 == 1,
        _ => false,
    }
}

// Refusals 2 to 6 of a file as a message of a type: a check of its size, and one walk.
fn walk_file(t: MessageType, file: &[u8]) -> Result<Located, Refusal>
    ensures { Walks t file.now (located_by result) }
{
    if file.len() == 0 {
        return Err(Refusal::FileSize);
    }
    if 8192 < file.len() {
        return Err(Refusal::FileSize);
    }
    let found = reader_walk::walk(t, file);
    if found.stop < file.len() {
        return Err(Refusal::ForbiddenByte(found.stop));
    }
    let frame = found.frame;
    if frame.seps != 2 {
        return Err(Refusal::Separators(frame.seps));
    }
    if frame.inside != 1 {
        return Err(Refusal::Separators(frame.seps));
    }
    if is_mfrr(t, found.second) {
        return place(Layout::Mfrr, frame.row, found.second, found.others);
    }
    place(layout::of_type(t), frame.row, found.first, found.places)
}

// Refusals 13 and 1 of the plan, and then those of the file.
fn locate(ca: u32, ioa: u32, plan: &[u8], file: &[u8]) -> Result<Located, Refusal>
    ensures { Locates ca ioa plan.now file.now (located_by result) }
{
    let sought = plan::seek(plan, ca, ioa)?;
    let mut x = walk_file(sought.message, file)?;
    let unit = sought.unit;
    x.size = sought.size;
    x.unit = unit;
    Ok(x)
}

// Whether a text is the one at a place of the file.
fn is_at(text: &[u8], file: &[u8], p: Span) -> bool
    requires { (p.from ≤ p.to) × (p.to ≤ length file.now) }
    ensures { result ≡ same text.now (part_of file.now p) }
{
    scan::same(text, p.text(file))
}

// Refusals 8 to 10: the lowest broken rule, the unit, which is the plan's where it is the first `size` bytes of its room, the row.
fn judge(
    l: Layout,
    unit: [u8; 16],
    size: usize,
    file: &[u8],
    row: Span,
    places: [Span; 27],
    broken: Option<Rule>,
) -> Result<(), Refusal>
    requires { (row.from ≤ row.to) × (row.to ≤ length file.now) × Placed (size_of l) file.now places }
    ensures { verdict_by result ≡ verdict (broken_number broken)
        (same (take size unit) (text_at (column_at l file.now places) unit_no))
        (same (part_of file.now row) (row_of l (column_at l file.now places))) }
{
    if let Some(rule) = broken {
        return Err(Refusal::BrokenRule(rule.number() as usize));
    }
    if !is_at(scan::front(&unit, size), file, places[fields::UNIT]) {
        return Err(Refusal::OtherUnit);
    }
    if !reader_row::agrees(l, file, row, places) {
        return Err(Refusal::RowDiffers);
    }
    Ok(())
}

// The values of a layout's fields, one by one into the cells. Refusal 7: the first field that has none.
fn fill(
    l: Layout,
    file: &[u8],
    places: &[Span; 27],
    triples: Option<usize>,
    cells: &mut [Cell; 26],
) -> Result<(), Refusal>
    requires placed { Placed (size_of l) file.now places.now }
    requires gradients { triples ≡ counted_triples (gradients_in (text_at (column_at l file.now places.now) (gradients_field l))) }
    requires blank { cells.old ≡ replicate 26 (cell Value.Blank) }
    ensures first_bad { result ≡ filled_by (filled_of (kinds_of l) (column_at l file.now places.now)).bad }
    ensures filled { cells.new ≡ (filled_of (kinds_of l) (column_at l file.now places.now)).cells }
{
    for k in 0..layout::size(l) {
        let Some(value) = reader_fill::value_in(l, k + 1, file, places[k + 1], triples) else {
            return Err(Refusal::BadValue(k + 1));
        };
        cells[k] = Cell { value };
    }
    Ok(())
}

// A file judged at an address of a plan. The cells are filled where they are handed back.
pub fn judged(ca: u32, ioa: u32, plan: &[u8], file: &[u8]) -> Result<Reading, Refusal>
    ensures { reading_by result ≡ reading_of ca ioa plan.now file.now }
{
    let x = locate(ca, ioa, plan, file)?;
    let gradients = reader_fill::gradients_of(x.layout, file, x.places);
    let mut r = Reading {
        layout: x.layout,
        row: x.row,
        cells: [record::EMPTY; 26],
        gradients: triples::kept(gradients),
        places: x.places,
    };
    fill(
        x.layout,
        file,
        &x.places,
        triples::counted(gradients),
        &mut r.cells,
    )?;
    let broken = record_rules::lowest_of(x.layout, &r.cells, &r.gradients);
    judge(x.layout, x.unit, x.size, file, x.row, x.places, broken)?;
    Ok(r)
}

// A file read at an address of a plan.
pub fn read(ca: u32, ioa: u32, plan: &[u8], file: &[u8]) -> Result<Record, Refusal>
    ensures { answer_by result ≡ read_of ca ioa plan.now file.now }
{
    let x = judged(ca, ioa, plan, file)?;
    Ok(reader_fill::record_of(x.layout, file, x.places, x.cells, x.gradients))
}
