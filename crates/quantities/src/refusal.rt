//! Why a call refuses its input. Each reason has a fixed number, by which callers and files know it.
ghost use Rattle.quantities.specs.Refusals.{number};
ghost use Rattle.std.specs.Prelude.{◌≡◌};

use std::error::Error;
use std::fmt;

#[derive(Clone, Copy, Debug, PartialEq, Eq, Hash)]
pub enum Refusal {
    WrongSheetLength = 1,
    BytesEndInRecord = 2,
    NoSuchPlace = 3,
    NoSuchDay = 4,
    NotAPeriod = 5,
    ShareNotAllowed = 6,
    RowFull = 7,
    DoesNotFollow = 8,
    OutsideSpan = 9,
    RunOutsidePeriod = 10,
    EmptyMap = 11,
    RecordOutOfOrder = 12,
    ReadingTooLarge = 13,
    BitForZero = 14,
    BytesAfterRecord = 15,
    SheetDoesNotFit = 16,
    SpanLacksDay = 17,
    BufferTooShort = 18,
    QuarterHoursLeft = 19,
}

// By a cast, which is how an enum's number is read.
impl From<Refusal> for u8 {
    ghost from_gives = { λ refusal code. code ≡ number refusal };

    fn from(refusal: Refusal) -> u8 {
        refusal as u8
    }
}

impl Refusal {
    // The reason in words. They may change; the number may not.
    fn reason(self) -> &'static str {
        match self {
            Refusal::WrongSheetLength => "the sheet has another length",
            Refusal::BytesEndInRecord => "the bytes end inside a record",
            Refusal::NoSuchPlace => "there is no such place",
            Refusal::NoSuchDay => "there is no such day",
            Refusal::NotAPeriod => "the days are out of order, or too many",
            Refusal::ShareNotAllowed =>
                "a share is above the whole, or not zero at a feeding place",
            Refusal::RowFull => "the place's row in the register is full",
            Refusal::DoesNotFollow => "the entry does not follow on the place's row",
            Refusal::OutsideSpan => "the quarter hour is outside the meter source's days",
            Refusal::RunOutsidePeriod => "the saved run's place is outside its period",
            Refusal::EmptyMap => "a record has no reading",
            Refusal::RecordOutOfOrder => "a record is not after the one before",
            Refusal::ReadingTooLarge => "a reading is above its limit",
            Refusal::BitForZero => "a bit stands for a saved number of zero",
            Refusal::BytesAfterRecord => "bytes follow the record",
            Refusal::SheetDoesNotFit => "the sheet does not fit the run",
            Refusal::SpanLacksDay => "the meter source lacks a day",
            Refusal::BufferTooShort => "the buffer is too short",
            Refusal::QuarterHoursLeft => "quarter hours are left",
        }
    }
}

// Written out, since the number and the words are printed together and the number stands once.
impl fmt::Display for Refusal {
    fn fmt<W: fmt::Write>(&self, f: &mut fmt::Formatter<W>) -> fmt::Result {
        write!(f, "refusal {}: {}", u8::from(*self), self.reason())
    }
}

impl Error for Refusal {}
