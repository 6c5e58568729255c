// What is received, by its kind, what is sent, as a frame, and what a step tells of it.
#![tactic(auto)]

ghost use Rattle.std.specs.Prelude.{◌≡◌, length};
ghost use Rattle.refusal.specs.Answer.{counted_in};
ghost use Rattle.wire.specs.Lent.{out_after};
ghost use Rattle.message.specs.Message.{received_of, control, response, reject};
ghost use Rattle.message.specs.Notice.{notice_number};
ghost use Rattle.message.specs.Send.{send_in};
ghost use Rattle.message.specs.Written.{about_of, bytes_of, sent_of};

use frame::Header;
use refusal::Refusal;

/// A received message: control of a kind, or data.
#[derive(Clone, Copy, Debug, PartialEq, Eq)]
pub enum Received {
    Reject(Header),
    OtherPType(Header),
    OtherSType(Header),
    SelectReq(Header),
    SelectRsp(Header),
    DeselectReq(Header),
    DeselectRsp(Header),
    LinktestReq(Header),
    LinktestRsp(Header),
    SeparateReq(Header),
    Data(Header),
}

/// SType 7 is judged before the PType, the PType before the SType.
impl From<Header> for Received {
    ghost from_gives = { λ header received. received ≡ received_of header };

    #[tactic(auto, unfolding(crate::specs::Message::received_of))]
    fn from(header: Header) -> Received {
        match (header.stype, header.ptype) {
            (7, _) => Received::Reject(header),
            (_, 1..) => Received::OtherPType(header),
            (0, _) => Received::Data(header),
            (1, _) => Received::SelectReq(header),
            (2, _) => Received::SelectRsp(header),
            (3, _) => Received::DeselectReq(header),
            (4, _) => Received::DeselectRsp(header),
            (5, _) => Received::LinktestReq(header),
            (6, _) => Received::LinktestRsp(header),
            (9, _) => Received::SeparateReq(header),
            _ => Received::OtherSType(header),
        }
    }
}

/// The text of a message to send: none, an S9's item about a header, or the wish's.
#[derive(Clone, Copy, Debug, PartialEq, Eq)]
pub enum Text {
    Empty,
    About(Header),
    Wished,
}

/// A message to send.
#[derive(Clone, Copy, Debug, PartialEq, Eq)]
pub struct Message {
    pub header: Header,
    pub text: Text,
}

/// What was done with a message or a wish that is not refused; docs/NUMBERS.md has each in full.
#[derive(Clone, Copy, Debug, PartialEq, Eq)]
pub enum Notice {
    Done = 0,
    Delivered = 30,
    Answered = 31,
    Dropped = 32,
    Repeated = 33,
    Closed = 34,
    ClosedNothing = 35,
}

impl From<Notice> for u32 {
    ghost from_gives = { λ notice number. number ≡ notice_number notice };

    fn from(notice: Notice) -> u32 {
        notice as u32
    }
}

/// A control message; header bytes not named are 00.
// STypes, statuses and reasons are bytes of a header here, any of 256, as the definitions have them.
pub fn control_of(session: u16, system: u32, byte2: u8, byte3: u8, stype: u8) -> Message
    ensures { send_in (Some result) ≡ control session system byte2 byte3 stype }
{
    Message {
        header: Header {
            session,
            byte2,
            byte3,
            ptype: 0,
            stype,
            system,
        },
        text: Text::Empty,
    }
}

/// The response to a message, with its status.
pub fn response_of(h: Header, stype: u8, status: u8) -> Message
    ensures { send_in (Some result) ≡ response h stype status }
{
    control_of(h.session, h.system, 0, status, stype)
}

/// The Reject of a message, with its reason; reason 2 is a PType that is not supported.
pub fn reject_of(h: Header, reason: u8) -> Message
    ensures { send_in (Some result) ≡ reject h reason }
{
    let byte2 = if reason == 2 { h.ptype } else { h.stype };
    control_of(h.session, h.system, byte2, reason, 7)
}

// The lean B item of a header's ten bytes.
fn item_about(h: Header) -> [u8; 12]
    ensures { result ≡ about_of h }
{
    let mut item = [0; 12];
    item[0] = 0x21;
    item[1] = 0x0A;
    item[2..].copy_from_slice(&<[u8; 10]>::from(h));
    item
}

/// Writes what is to be sent as a frame, the wish's text being given, and answers the bytes used; none where nothing is sent.
pub fn write_message(m: Option<Message>, wished: &[u8], out: &mut [u8]) -> Result<usize, Refusal>
    ensures { (counted_in result ≡ sent_of (send_in m) wished.now (length out.old))
        × (out.new ≡ out_after (counted_in result) (bytes_of (send_in m) wished.now) out.old) }
{
    match m {
        None => Ok(0),
        Some(Message { header, text }) => match text {
            Text::Empty => frame::write(header, &[], out),
            Text::About(about) => frame::write(header, &item_about(about), out),
            Text::Wished => frame::write(header, wished, out),
        },
    }
}
