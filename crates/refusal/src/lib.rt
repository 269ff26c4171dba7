// Why a file, a record, a unit of a transfer or a call is refused: each refusal of docs/01-scope.md, with its number there and its detail.
#![tactic(auto)]

ghost use Rattle.refusal.specs.Numbers.{number_of, detail_of};
ghost use Rattle.std.specs.Prelude.{◌≡◌};

// What is told beside the number stands in the variant: where a byte stands, which field, line or rule it is, how many there are, how many bytes are needed.
#[derive(Clone, Copy, PartialEq, Eq, Debug)]
pub enum Refusal {
    UnknownAddress,
    FileSize,
    ForbiddenByte(usize),
    Separators(usize),
    LabelTwice(usize),
    LabelsMissing(usize),
    BadValue(usize),
    BrokenRule(usize),
    OtherUnit,
    RowDiffers,
    NoRoom(usize),
    InvalidRecord,
    BadPlan(usize),
    BadSheet,
    NotMarket,
    BadBook,
    NotTheBooksUnit,
    AlreadyHeld,
    EndsClosed,
    NoPlace,
    NotHeld,
    StruckAlready,
    CloseBelowFloor,
    AskedBelowFloor,
    WrongType,
    OutsideItsOrder,
    FifthStretch,
    OutOfTurn,
    WrongSum,
    WrongLength,
    TooLong,
    ForeignUnit,
    BadLine(usize),
    PartlyStruck,
}

impl Refusal {
    pub fn number(self) -> u8
        ensures { result ≡ number_of self }
    {
        match self {
            Refusal::UnknownAddress => 1,
            Refusal::FileSize => 2,
            Refusal::ForbiddenByte(_) => 3,
            Refusal::Separators(_) => 4,
            Refusal::LabelTwice(_) => 5,
            Refusal::LabelsMissing(_) => 6,
            Refusal::BadValue(_) => 7,
            Refusal::BrokenRule(_) => 8,
            Refusal::OtherUnit => 9,
            Refusal::RowDiffers => 10,
            Refusal::NoRoom(_) => 11,
            Refusal::InvalidRecord => 12,
            Refusal::BadPlan(_) => 13,
            Refusal::BadSheet => 14,
            Refusal::NotMarket => 16,
            Refusal::BadBook => 20,
            Refusal::NotTheBooksUnit => 21,
            Refusal::AlreadyHeld => 22,
            Refusal::EndsClosed => 23,
            Refusal::NoPlace => 24,
            Refusal::NotHeld => 25,
            Refusal::StruckAlready => 26,
            Refusal::CloseBelowFloor => 27,
            Refusal::AskedBelowFloor => 28,
            Refusal::WrongType => 29,
            Refusal::OutsideItsOrder => 31,
            Refusal::FifthStretch => 32,
            Refusal::OutOfTurn => 40,
            Refusal::WrongSum => 41,
            Refusal::WrongLength => 42,
            Refusal::TooLong => 43,
            Refusal::ForeignUnit => 44,
            Refusal::BadLine(_) => 50,
            Refusal::PartlyStruck => 52,
        }
    }

    // 0 where nothing is told beside the number.
    pub fn detail(self) -> usize
        ensures { result ≡ detail_of self }
    {
        match self {
            Refusal::ForbiddenByte(at) => at,
            Refusal::Separators(count) => count,
            Refusal::LabelTwice(field) => field,
            Refusal::LabelsMissing(count) => count,
            Refusal::BadValue(field) => field,
            Refusal::BrokenRule(rule) => rule,
            Refusal::NoRoom(needed) => needed,
            Refusal::BadPlan(line) => line,
            Refusal::BadLine(line) => line,
            _ => 0,
        }
    }
}
