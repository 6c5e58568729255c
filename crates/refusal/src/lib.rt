// Why a call refuses: each cause, with its number.
#![tactic(auto)]

ghost use Rattle.std.specs.Prelude.{◌≡◌, Some};
ghost use Rattle.refusal.specs.Number.{number_of, Numbered};
ghost use Rattle.refusal.specs.Words.{words_of, unknown_words};

use std::error::Error;
use std::fmt;

/// Why a call refuses; docs/NUMBERS.md has each cause in full, and the calls that give it.
#[derive(Clone, Copy, Debug, PartialEq, Eq)]
pub enum Refusal {
    UnknownCode = 1,
    NoLengthBytes = 2,
    WrongLength = 3,
    TooDeep = 4,
    NoSuchText = 5,
    WrongByte = 6,
    BehindComplete = 7,
    NoElement = 8,
    IsList = 9,
    ShortFrame = 10,
    LongFrame = 11,
    ControlWithText = 12,
    InsideFrame = 13,
    BrokenState = 14,
    NotOneItem = 15,
    OutsideContent = 16,
    ShortOutput = 17,
    LongText = 18,
    ShortTable = 19,
    NotConnected = 20,
    AlreadyConnected = 21,
    NotSelected = 22,
    NoPrimary = 23,
    OwnSlotsFull = 24,
    NoReceivedSlot = 25,
    LinktestOpen = 26,
    TimerStopped = 27,
    WrongDevice = 28,
    NoRoom = 40,
    BothEmpty = 41,
    NotWholeFrames = 42,
}

impl From<Refusal> for u32 {
    ghost from_gives = { λ refusal number. number ≡ number_of refusal };

    fn from(refusal: Refusal) -> u32 {
        refusal as u32
    }
}

/// A number that no refusal has.
#[derive(Clone, Copy, Debug, PartialEq, Eq)]
pub struct UnknownNumber(pub u32);

impl TryFrom<u32> for Refusal {
    type Error = UnknownNumber;

    ghost try_from_gives = { Numbered };

    fn try_from(number: u32) -> Result<Refusal, UnknownNumber> {
        match number {
            1 => Ok(Refusal::UnknownCode),
            2 => Ok(Refusal::NoLengthBytes),
            3 => Ok(Refusal::WrongLength),
            4 => Ok(Refusal::TooDeep),
            5 => Ok(Refusal::NoSuchText),
            6 => Ok(Refusal::WrongByte),
            7 => Ok(Refusal::BehindComplete),
            8 => Ok(Refusal::NoElement),
            9 => Ok(Refusal::IsList),
            10 => Ok(Refusal::ShortFrame),
            11 => Ok(Refusal::LongFrame),
            12 => Ok(Refusal::ControlWithText),
            13 => Ok(Refusal::InsideFrame),
            14 => Ok(Refusal::BrokenState),
            15 => Ok(Refusal::NotOneItem),
            16 => Ok(Refusal::OutsideContent),
            17 => Ok(Refusal::ShortOutput),
            18 => Ok(Refusal::LongText),
            19 => Ok(Refusal::ShortTable),
            20 => Ok(Refusal::NotConnected),
            21 => Ok(Refusal::AlreadyConnected),
            22 => Ok(Refusal::NotSelected),
            23 => Ok(Refusal::NoPrimary),
            24 => Ok(Refusal::OwnSlotsFull),
            25 => Ok(Refusal::NoReceivedSlot),
            26 => Ok(Refusal::LinktestOpen),
            27 => Ok(Refusal::TimerStopped),
            28 => Ok(Refusal::WrongDevice),
            40 => Ok(Refusal::NoRoom),
            41 => Ok(Refusal::BothEmpty),
            42 => Ok(Refusal::NotWholeFrames),
            _ => Err(UnknownNumber(number)),
        }
    }
}

impl fmt::Display for Refusal {
    ghost output = { λ refusal. Some (words_of refusal) };

    fn fmt<W: fmt::Write>(&self, f: &mut fmt::Formatter<W>) -> fmt::Result {
        f.write_str(match self {
            Refusal::UnknownCode => "the code is unknown",
            Refusal::NoLengthBytes => "a format byte says no length bytes",
            Refusal::WrongLength => "the code does not allow the length",
            Refusal::TooDeep => "a list at depth 16 has members",
            Refusal::NoSuchText => "no text of this length begins so",
            Refusal::WrongByte => "a content byte is above its code's largest",
            Refusal::BehindComplete => "fed behind complete",
            Refusal::NoElement => "no such element, or not of the code's sort or range",
            Refusal::IsList => "the code is a list's",
            Refusal::ShortFrame => "the frame's length is below 10",
            Refusal::LongFrame => "the frame's length is above 32,010",
            Refusal::ControlWithText => "a control message has a text",
            Refusal::InsideFrame => "the end is inside a frame, or not a frame's",
            Refusal::BrokenState => "the state breaks its list",
            Refusal::NotOneItem => "the rows are neither none nor one whole item",
            Refusal::OutsideContent => "the place and length are outside the content",
            Refusal::ShortOutput => "the output is too short",
            Refusal::LongText => "the lean text is above 32,000 bytes",
            Refusal::ShortTable => "the row table is too small",
            Refusal::NotConnected => "not connected",
            Refusal::AlreadyConnected => "already connected",
            Refusal::NotSelected => "not selected",
            Refusal::NoPrimary => "no stream or function of a primary",
            Refusal::OwnSlotsFull => "the own slots are full",
            Refusal::NoReceivedSlot => "no received primary has these system bytes",
            Refusal::LinktestOpen => "the own linktest is already open",
            Refusal::TimerStopped => "the timer is not running",
            Refusal::WrongDevice => "the device ID is above 32,767",
            Refusal::NoRoom => "the frame is longer than the room left",
            Refusal::BothEmpty => "both outboxes are empty",
            Refusal::NotWholeFrames => "the used bytes are not whole frames",
        })
    }
}

impl fmt::Display for UnknownNumber {
    ghost output = { λ e. Some (unknown_words e) };

    fn fmt<W: fmt::Write>(&self, f: &mut fmt::Formatter<W>) -> fmt::Result {
        write!(f, "no refusal has the number {}", self.0)
    }
}

impl Error for Refusal {}

impl Error for UnknownNumber {}
