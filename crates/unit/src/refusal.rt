// Why a unit is refused, and where: the rows of the tables of answers that refuse.
ghost use Rattle.std.specs.Prelude.{◌≡◌};
ghost use Rattle.unit.specs.Refusal.{reason_number, refusal};

// The reasons, each with its number.
#[derive(Clone, Copy, Debug, PartialEq, Eq)]
pub enum Reason {
    NotUnit = 1,
    ShortBuffer = 2,
    MetadataCount = 3,
    TypeCount = 4,
    InvalidOpcode = 5,
    EffectError = 6,
    SlotOutside = 7,
    BranchOutside = 8,
    UnsoundLoop = 9,
    LostLoop = 10,
    LinePlaces = 11,
    FrameLength = 12,
    TooManyCases = 13,
    TariffLength = 15,
}

// A refusal: the number of its reason, and the place that it names.
#[derive(Clone, Copy, Debug, PartialEq, Eq)]
pub struct Refusal {
    pub number: u32,
    pub place: u32,
}

impl Reason {
    pub fn at(self, place: u32) -> Refusal
        ensures refusal { result ≡ refusal (reason_number self) place }
    {
        Refusal {
            number: self as u32,
            place,
        }
    }
}
