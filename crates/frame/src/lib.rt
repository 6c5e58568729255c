// A frame: its header, its length and kind judged, its bytes written.
#![tactic(auto)]

ghost use Rattle.std.specs.Prelude.{◌≡◌, ◌<◌, ◌^◌, length};
ghost use Rattle.refusal.specs.Answer.{number_in, counted_in};
ghost use Rattle.wire.specs.Lent.{out_after};
ghost use Rattle.frame.specs.Header.{header_bytes, header_of, w_of, stream_of, data_header};
ghost use Rattle.frame.specs.Frame.{length_in, length_number, kind_number, frame_of, written_of};

use refusal::Refusal;
use wire::LONGEST;

/// The ten header bytes of a frame, by name.
#[derive(Clone, Copy, Debug, PartialEq, Eq)]
pub struct Header {
    pub session: u16,
    pub byte2: u8,
    pub byte3: u8,
    pub ptype: u8,
    pub stype: u8,
    pub system: u32,
}

impl Header {
    /// Whether the W bit of a data header is set.
    pub fn wants_reply(self) -> bool
        ensures { result ≡ w_of self }
    {
        0x80 <= self.byte2
    }

    /// The stream of a data header.
    pub fn stream(self) -> u8
        ensures { result ≡ stream_of self }
    {
        self.byte2 % 0x80
    }
}

impl From<[u8; 10]> for Header {
    ghost from_gives = { λ bytes header. header ≡ header_of bytes };

    #[tactic(auto, unfolding(crate::specs::Header::header_of))]
    fn from(bytes: [u8; 10]) -> Header {
        let [s1, s2, byte2, byte3, ptype, stype, k1, k2, k3, k4] = bytes;
        Header {
            session: u16::from_be_bytes([s1, s2]),
            byte2,
            byte3,
            ptype,
            stype,
            system: u32::from_be_bytes([k1, k2, k3, k4]),
        }
    }
}

impl From<Header> for [u8; 10] {
    ghost from_gives = { λ header bytes. bytes ≡ header_bytes header };

    #[tactic(auto, unfolding(crate::specs::Header::header_bytes, wire::specs::Number::bytes_of))]
    fn from(header: Header) -> [u8; 10] {
        let Header {
            session,
            byte2,
            byte3,
            ptype,
            stype,
            system,
        } = header;
        let [s1, s2] = session.to_be_bytes();
        let [k1, k2, k3, k4] = system.to_be_bytes();
        [s1, s2, byte2, byte3, ptype, stype, k1, k2, k3, k4]
    }
}

/// A data header; of a stream above 127 the last seven bits count.
#[tactic(auto, unfolding(crate::specs::Header::data_header))]
pub fn data_header(session: u16, w: bool, stream: u8, function: u8, system: u32) -> Header
    ensures { result ≡ data_header session w stream function system }
{
    let flag: u8 = if w { 0x80 } else { 0x00 };
    Header {
        session,
        byte2: flag + stream % 0x80,
        byte3: function,
        ptype: 0,
        stype: 0,
        system,
    }
}

/// The length that a frame's first four bytes say; of fewer bytes these count.
pub fn length_in(s: &[u8]) -> usize
    ensures { (result ≡ length_in s.now) × (result < 2 ^ 32) }
{
    wire::number(&s[..s.len().min(4)]) as usize
}

/// Whether a frame may have a length.
#[tactic(auto, unfolding(crate::specs::Frame::length_number))]
pub fn judge_length(n: usize) -> Result<(), Refusal>
    ensures { number_in result ≡ length_number n }
{
    if n < 10 {
        Err(Refusal::ShortFrame)
    } else if LONGEST + 10 < n {
        Err(Refusal::LongFrame)
    } else {
        Ok(())
    }
}

/// Whether a frame of an SType may have a length: a control message has no text.
// The SType is the header's byte, any of 256.
#[tactic(auto, unfolding(crate::specs::Frame::kind_number))]
pub fn judge_kind(stype: u8, n: usize) -> Result<(), Refusal>
    ensures { number_in result ≡ kind_number stype n }
{
    if stype == 0 || n == 10 {
        Ok(())
    } else {
        Err(Refusal::ControlWithText)
    }
}

/// Writes the frame of a header and a text, and answers the bytes used.
pub fn write(h: Header, text: &[u8], out: &mut [u8]) -> Result<usize, Refusal>
    ensures { (counted_in result ≡ written_of h (length text.now) (length out.old))
        × (out.new ≡ out_after (counted_in result) (frame_of h text.now) out.old) }
{
    if LONGEST < text.len() {
        return Err(Refusal::LongFrame);
    }
    let length = 10 + text.len();
    judge_kind(h.stype, length)?;
    let size = 4 + length;
    if out.len() < size {
        return Err(Refusal::ShortOutput);
    }
    wire::put(&mut out[..4], length as u64);
    out[4..14].copy_from_slice(&<[u8; 10]>::from(h));
    out[14..size].copy_from_slice(text);
    Ok(size)
}
