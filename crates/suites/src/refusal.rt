// Why a call is turned down: one list for the whole library.
ghost use Rattle.std.specs.Prelude.{◌≡◌};
ghost use Rattle.suites.specs.Refusal.{number};

#[derive(Clone, Copy, Debug, PartialEq, Eq)]
pub enum Refusal {
    SuiteNotListed,
    KeyLength,
    NonceLength,
    HeaderTooLong,
    SealedTooShort,
    TextTooLong,
    OutputTooShort,
    TagDiffers,
    WriterInvalid,
    WriterClosed,
    LanguagesNotAllowed,
    SegmentLength,
    TooManyUnits,
    FieldMalformed,
    NumberOutOfOrder,
    NoSuchUnit,
}

impl Refusal {
    // The refusal's number, from 1.
    pub fn number(self) -> u32
        ensures { result ≡ number self }
    {
        match self {
            Refusal::SuiteNotListed => 1,
            Refusal::KeyLength => 2,
            Refusal::NonceLength => 3,
            Refusal::HeaderTooLong => 4,
            Refusal::SealedTooShort => 5,
            Refusal::TextTooLong => 6,
            Refusal::OutputTooShort => 7,
            Refusal::TagDiffers => 8,
            Refusal::WriterInvalid => 9,
            Refusal::WriterClosed => 10,
            Refusal::LanguagesNotAllowed => 11,
            Refusal::SegmentLength => 12,
            Refusal::TooManyUnits => 13,
            Refusal::FieldMalformed => 14,
            Refusal::NumberOutOfOrder => 15,
            Refusal::NoSuchUnit => 16,
        }
    }
}
