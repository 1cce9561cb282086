// Why a reading ended before it was done, with its number (docs/NUMBERS.md has the words of each). 31 to 35 stop a reading, the
// others refuse it; 23 and 24 refuse a show file, 25 and 26 a name's text, 36 to 38 the packet of new parents, 39 a part of a show.
ghost use Rattle.std.specs.Prelude.{◌≡◌};
ghost use Rattle.rules.specs.Reason.{number_of, end_of, Decodes};
ghost use Rattle.rules.specs.Answer.{end_outcome, ended_as};

use super::Outcome;

#[derive(Clone, Copy, PartialEq, Eq)]
pub enum Reason {
    InputTooLong = 1,
    BadShapes = 2,
    BitsMissing = 3,
    TooManyFields = 4,
    NoRoom = 5,
    BadCount = 6,
    ExtensionsUnended = 7,
    ParentUndeclared = 8,
    ParentsInCircle = 9,
    NoConfiguration = 10,
    TooManyParameters = 11,
    TooManyRendererParameters = 12,
    ReverbType = 13,
    MatrixLocation = 14,
    RadiationType = 15,
    ComponentType = 16,
    LabelUnended = 17,
    HeadphoneBytes = 18,
    CompressionBytes = 19,
    SymbolWidth = 20,
    CodewordWidth = 21,
    BadProbabilities = 22,
    FileTooLong = 23,
    HeaderUnsound = 24,
    NameUnknown = 25,
    TextTooLong = 26,
    RoomGeometryFallback = 31,
    DoublePrecision = 32,
    HrtfType2 = 33,
    HrtfType = 34,
    LzwWidth = 35,
    ListsDiffer = 36,
    ParentNotDynamic = 37,
    PacketTooLong = 38,
    BitsFollow = 39,
}

// A number that no reason has.
#[derive(Clone, Copy)]
pub struct UnknownReason(pub u16);

impl Reason {
    // The least number of a reason that stops.
    const FIRST_STOP: u16 = Reason::RoomGeometryFallback as u16;

    // The greatest.
    const LAST_STOP: u16 = Reason::LzwWidth as u16;

    // The number that the papers give it.
    pub fn number(self) -> u16
        ensures { result ≡ number_of self }
    {
        self as u16
    }
}

impl From<Reason> for Outcome {
    fn from(reason: Reason) -> Outcome
        ensures { result ≡ end_outcome (end_of reason) }
    {
        let number = reason.number();
        if number < Reason::FIRST_STOP || Reason::LAST_STOP < number {
            Outcome::Refused(number)
        } else {
            Outcome::Stopped(number)
        }
    }
}

impl From<Result<(), Reason>> for Outcome {
    fn from(ended: Result<(), Reason>) -> Outcome
        ensures { result ≡ ended_as ended }
    {
        match ended {
            Ok(()) => Outcome::Read,
            Err(reason) => Outcome::from(reason),
        }
    }
}

impl TryFrom<u16> for Reason {
    type Error = UnknownReason;

    ghost try_from_gives = { Decodes };

    fn try_from(number: u16) -> Result<Reason, UnknownReason> {
        match number {
            1 => Ok(Reason::InputTooLong),
            2 => Ok(Reason::BadShapes),
            3 => Ok(Reason::BitsMissing),
            4 => Ok(Reason::TooManyFields),
            5 => Ok(Reason::NoRoom),
            6 => Ok(Reason::BadCount),
            7 => Ok(Reason::ExtensionsUnended),
            8 => Ok(Reason::ParentUndeclared),
            9 => Ok(Reason::ParentsInCircle),
            10 => Ok(Reason::NoConfiguration),
            11 => Ok(Reason::TooManyParameters),
            12 => Ok(Reason::TooManyRendererParameters),
            13 => Ok(Reason::ReverbType),
            14 => Ok(Reason::MatrixLocation),
            15 => Ok(Reason::RadiationType),
            16 => Ok(Reason::ComponentType),
            17 => Ok(Reason::LabelUnended),
            18 => Ok(Reason::HeadphoneBytes),
            19 => Ok(Reason::CompressionBytes),
            20 => Ok(Reason::SymbolWidth),
            21 => Ok(Reason::CodewordWidth),
            22 => Ok(Reason::BadProbabilities),
            23 => Ok(Reason::FileTooLong),
            24 => Ok(Reason::HeaderUnsound),
            25 => Ok(Reason::NameUnknown),
            26 => Ok(Reason::TextTooLong),
            31 => Ok(Reason::RoomGeometryFallback),
            32 => Ok(Reason::DoublePrecision),
            33 => Ok(Reason::HrtfType2),
            34 => Ok(Reason::HrtfType),
            35 => Ok(Reason::LzwWidth),
            36 => Ok(Reason::ListsDiffer),
            37 => Ok(Reason::ParentNotDynamic),
            38 => Ok(Reason::PacketTooLong),
            39 => Ok(Reason::BitsFollow),
            _ => Err(UnknownReason(number)),
        }
    }
}
