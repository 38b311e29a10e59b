//! Why a filing is refused.
ghost use Rattle.std.specs.Prelude.{◌≡◌, ◌≤◌, length};
ghost use Rattle.fpl_message.specs.Numbers.{number_of, name_of, detail_of};

/// Why a filing is refused, with the number by which operators know the reason.
///
/// The names and numbers are this desk's own; what a message must look like is ICAO Doc 4444,
/// appendices 2 and 3.
#[derive(Clone, Copy, Debug, PartialEq, Eq)]
pub enum Refusal {
    /// Nothing but blanks.
    Empty,
    /// A byte that no message has, at this offset in the filing as given, counted from 0.
    BadByte(u16),
    /// No pair of brackets round the whole message, or a bracket inside.
    NoBracket,
    /// A first field that does not begin with FPL, DLA, CHG, CNL or DEP.
    UnknownTitle,
    /// Too few or too many fields for the title.
    FieldCount,
    /// The field of this number does not have its form.
    BadField(u8),
    /// A second DOF item in field 18, or a second amendment of one field.
    DuplicateItem,
    /// A DOF item that is not one date.
    BadDate,
    /// An amendment of this field is not read.
    UnsupportedAmendment(u8),
    /// A held plan has the same identification, departure, destination and day.
    AlreadyHeld,
    /// No plan matches the message.
    NoPlan,
    /// Several plans match the message.
    Ambiguous,
    /// The plan that matches the message has departed.
    AlreadyDeparted,
    /// An amendment that would make another flight of the plan.
    KeyChange,
    /// A delay to the same time of day.
    NotLater,
    /// A delay of more than 720 minutes.
    DelayTooLong,
    /// An off-block date and time before the desk's time.
    Past,
    /// An off-block date and time more than 120 hours after the desk's time.
    TooEarly,
    /// The desk has accepted as many flight plans as its setup allows.
    PlansFull,
    /// A text that is neither a message nor an order.
    BadOrder,
    /// A regulation of this name is open.
    RegulationHeld,
    /// No regulation of this name is open.
    NoRegulation,
    /// 64 regulations are open.
    RegulationsFull,
    /// A regulation must last 1 to 1,440 minutes, with sub-periods that rise within it.
    BadPeriod,
    /// A rate is at most 240 an hour, and the last one at least 1.
    BadRate,
    /// An earlier time than the desk's.
    TimeBack,
}

// Each entry of a journal may have one.
const _: () = prove!(size_of::<Refusal>() <= 4);

impl Refusal {
    /// Returns the number of the reason, 1 to 36.
    pub fn number(self) -> u32
        ensures value { result ≡ number_of self }
        ensures bound { result ≤ 36 }
    {
        match self {
            Refusal::Empty => 1,
            Refusal::BadByte(_) => 2,
            Refusal::NoBracket => 3,
            Refusal::UnknownTitle => 4,
            Refusal::FieldCount => 5,
            Refusal::BadField(_) => 10,
            Refusal::DuplicateItem => 11,
            Refusal::BadDate => 12,
            Refusal::UnsupportedAmendment(_) => 13,
            Refusal::AlreadyHeld => 20,
            Refusal::NoPlan => 21,
            Refusal::Ambiguous => 22,
            Refusal::AlreadyDeparted => 23,
            Refusal::KeyChange => 24,
            Refusal::NotLater => 25,
            Refusal::DelayTooLong => 26,
            Refusal::Past => 27,
            Refusal::TooEarly => 28,
            Refusal::PlansFull => 29,
            Refusal::BadOrder => 30,
            Refusal::RegulationHeld => 31,
            Refusal::NoRegulation => 32,
            Refusal::RegulationsFull => 33,
            Refusal::BadPeriod => 34,
            Refusal::BadRate => 35,
            Refusal::TimeBack => 36,
        }
    }

    /// Returns the name of the reason, of at most 20 letters.
    pub fn name(self) -> &'static [u8]
        ensures value { result.now ≡ name_of self }
        ensures bound { length result.now ≤ 20 }
    {
        match self {
            Refusal::Empty => b"Empty",
            Refusal::BadByte(_) => b"BadByte",
            Refusal::NoBracket => b"NoBracket",
            Refusal::UnknownTitle => b"UnknownTitle",
            Refusal::FieldCount => b"FieldCount",
            Refusal::BadField(_) => b"BadField",
            Refusal::DuplicateItem => b"DuplicateItem",
            Refusal::BadDate => b"BadDate",
            Refusal::UnsupportedAmendment(_) => b"UnsupportedAmendment",
            Refusal::AlreadyHeld => b"AlreadyHeld",
            Refusal::NoPlan => b"NoPlan",
            Refusal::Ambiguous => b"Ambiguous",
            Refusal::AlreadyDeparted => b"AlreadyDeparted",
            Refusal::KeyChange => b"KeyChange",
            Refusal::NotLater => b"NotLater",
            Refusal::DelayTooLong => b"DelayTooLong",
            Refusal::Past => b"Past",
            Refusal::TooEarly => b"TooEarly",
            Refusal::PlansFull => b"PlansFull",
            Refusal::BadOrder => b"BadOrder",
            Refusal::RegulationHeld => b"RegulationHeld",
            Refusal::NoRegulation => b"NoRegulation",
            Refusal::RegulationsFull => b"RegulationsFull",
            Refusal::BadPeriod => b"BadPeriod",
            Refusal::BadRate => b"BadRate",
            Refusal::TimeBack => b"TimeBack",
        }
    }

    /// Returns the offset of a byte that no message has, or the number of the field that is
    /// refused; `None` for any other reason.
    pub fn detail(self) -> Option<usize>
        ensures { result ≡ detail_of self }
    {
        match self {
            Refusal::BadByte(place) => Some(place as usize),
            Refusal::BadField(field) | Refusal::UnsupportedAmendment(field) => Some(field as usize),
            _ => None,
        }
    }
}
