// Why a list is refused, and where (01, 'The event list', its table of refusals).
ghost use Rattle.std.specs.Prelude.{◌≡◌};
ghost use Rattle.wire.specs.Told.{number_of, refused_at};

// The refusals in the order of 01's numbers, 1 to 8.
#[derive(Clone, Copy, PartialEq, Eq)]
pub enum Refusal {
    // More than 16,384 bytes.
    TooLong,
    // Fewer bits remain than the next event needs.
    CutShort,
    // Pin 28 to 31.
    NoPin,
    // A fill bit is 1.
    FillSet,
    // A byte follows the last filled one.
    ByteFollows,
    // Answers need more bytes than lent.
    AnswersRoom,
    // Openings outnumber the lent row.
    OpeningsRoom,
    // The device is not valid.
    InvalidDevice,
}

// A refusal and its place in bits.
#[derive(Clone, Copy, PartialEq, Eq)]
pub struct Refused {
    pub refusal: Refusal,
    pub place: usize,
}

impl Refusal {
    // This refusal at a place.
    pub fn at(self, place: usize) -> Refused
        ensures { result ≡ refused_at self place }
    {
        Refused {
            refusal: self,
            place,
        }
    }
}

impl From<Refusal> for u8 {
    ghost from_gives = { λ refusal number. number ≡ number_of refusal };

    // 01's number.
    fn from(refusal: Refusal) -> u8 {
        match refusal {
            Refusal::TooLong => 1,
            Refusal::CutShort => 2,
            Refusal::NoPin => 3,
            Refusal::FillSet => 4,
            Refusal::ByteFollows => 5,
            Refusal::AnswersRoom => 6,
            Refusal::OpeningsRoom => 7,
            Refusal::InvalidDevice => 8,
        }
    }
}
