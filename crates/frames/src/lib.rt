// The fed frame reader: a stream of bytes, in pieces, into headers and texts.
#![tactic(auto)]

ghost use Rattle.std.specs.Prelude.{◌≡◌, ◌≤◌, true, cond, eqb, ltb, [], ◌∷◌, ◌++◌, take};
ghost use Rattle.refusal.specs.Number.{number_of};
ghost use Rattle.refusal.specs.Answer.{number_in};
ghost use Rattle.frame.specs.Frame.{length_in, length_number};
ghost use Rattle.frames.specs.State.{head, holding, reader_of};
ghost use Rattle.frames.specs.Event.{fed_in, pushed_in};
ghost use Rattle.frames.specs.Feed.{all_zero, allows_head, allows_bare, allows, refused_after, pushed, eat, text_fed, fed_of, end_of};
ghost use Rattle.frames.specs.Asked.{Held};

use frame::Header;
use refusal::Refusal;
use wire::LONGEST;

/// Which bytes come next: of a frame's length and header, of its text, or none since it was refused.
// Any number may stand in Refused: a host passes any state, and one that breaks the list of docs/STATES.md is refused with 14.
#[derive(Clone, Copy, Debug, PartialEq, Eq)]
pub enum Phase {
    Head,
    Text,
    Refused(u32),
}

/// The bytes of a frame's head that came, and how many; the text bytes that are still to come.
// An array and a count of fixed size, and no invariant: a host keeps the state, and passes any.
#[derive(Clone, Copy, Debug, PartialEq, Eq)]
pub struct FrameReader {
    pub held: [u8; 14],
    pub count: usize,
    pub left: usize,
    pub phase: Phase,
}

/// What a piece reached: nothing yet; a whole header, with its text's length; text bytes, the first so many of the piece; a frame's end.
#[derive(Clone, Copy, Debug, PartialEq, Eq)]
pub enum Event {
    More,
    Header(Header, usize),
    Text(usize),
    End,
}

/// What a feed answers, the bytes of the piece that it consumed, and the reader after it.
#[derive(Clone, Copy, Debug, PartialEq, Eq)]
pub struct Fed {
    pub event: Result<Event, Refusal>,
    pub consumed: usize,
    pub reader: FrameReader,
}

// A reader that holds no byte.
fn bare(left: usize, phase: Phase) -> FrameReader
    ensures { result ≡ holding [] left phase }
{
    FrameReader {
        held: [0; 14],
        count: 0,
        left,
        phase,
    }
}

/// A reader before a frame.
#[tactic(auto, unfolding(crate::specs::State::reader_of))]
pub fn fresh_reader() -> FrameReader
    ensures { result ≡ reader_of (head []) }
{
    bare(0, Phase::Head)
}

// Whether every byte is 00: one call of std, as for the counts of `levels`.
fn all_zero(s: &[u8]) -> bool
    ensures { result ≡ all_zero s.now }
{
    s.iter().all(|byte| *byte == 0)
}

// Whether the bytes of a head, where four or more are held, say a length that a frame may have.
#[tactic(auto, using(frame::proofs::Judged::ok_number))]
fn allows_length(r: FrameReader) -> bool
    ensures { result ≡ cond (ltb r.count 4) true (eqb (length_number (length_in r.held)) 0) }
{
    r.count < 4 || frame::judge_length(frame::length_in(&r.held)).is_ok()
}

fn allows_head(r: FrameReader) -> bool
    ensures { result ≡ allows_head r }
{
    r.count < 14 && all_zero(&r.held[r.count..]) && r.left == 0 && allows_length(r)
}

fn allows_bare(r: FrameReader) -> bool
    ensures { result ≡ allows_bare r }
{
    r.count == 0 && all_zero(&r.held)
}

/// Whether the state does not break the list of docs/STATES.md.
#[tactic(auto, unfolding(crate::specs::Feed::allows))]
pub fn allows_state(r: FrameReader) -> bool
    ensures { result ≡ allows r }
{
    match r.phase {
        Phase::Head => allows_head(r),
        Phase::Text => allows_bare(r) && r.left <= LONGEST,
        Phase::Refused(number) => allows_bare(r) && r.left == 0 && matches!(number, 10..=12),
    }
}

// The refusal of a refused reader whose state is allowed.
fn refusal_of(number: u32) -> Refusal
    requires { (10 ≤ number) × (number ≤ 12) }
    ensures { number_of result ≡ number }
{
    Refusal::try_from(number).unwrap()
}

// A refused reader; so many bytes were consumed.
#[tactic(auto, unfolding(crate::specs::State::reader_of))]
fn refused(refusal: Refusal, consumed: usize) -> Fed
    ensures { fed_in result ≡ refused_after (number_of refusal) consumed }
{
    Fed {
        event: Err(refusal),
        consumed,
        reader: bare(0, Phase::Refused(u32::from(refusal))),
    }
}

// The head is whole: the reader then, and the header with its text's length.
fn whole_head(held: [u8; 14]) -> Result<(FrameReader, Option<(Header, usize)>), Refusal>
    requires { length_number (length_in held) ≡ 0 }
    ensures { pushed_in result ≡ pushed held }
{
    let length = frame::length_in(&held);
    frame::judge_kind(held[9], length)?;
    let header: [u8; 10] = held[4..].try_into().unwrap();
    let left = length - 10;
    Ok((bare(left, Phase::Text), Some((Header::from(header), left))))
}

// One byte more of a head: the reader then, and the header once it is whole.
fn push(r: FrameReader, b: u8) -> Result<(FrameReader, Option<(Header, usize)>), Refusal>
    requires { Held r }
    ensures { pushed_in result ≡ pushed (take r.count r.held ++ (b ∷ [])) }
{
    let mut held = r.held;
    held[r.count] = b;
    if r.count == 13 {
        return whole_head(held);
    }
    if r.count == 3 {
        frame::judge_length(frame::length_in(&held))?;
    }
    let reader = FrameReader {
        held,
        count: r.count + 1,
        left: 0,
        phase: Phase::Head,
    };
    Ok((reader, None))
}

fn eat_head(r: FrameReader, piece: &[u8]) -> Fed
    requires { Held r }
    ensures { fed_in result ≡ eat (take r.count r.held) 0 piece.now }
{
    let mut state = r;
    for (i, byte) in piece.iter().enumerate() {
        match push(state, *byte) {
            Ok((reader, None)) => state = reader,
            Ok((reader, Some((header, left)))) => {
                return Fed {
                    event: Ok(Event::Header(header, left)),
                    consumed: i + 1,
                    reader,
                };
            }
            Err(refusal) => return refused(refusal, i + 1),
        }
    }
    Fed {
        event: Ok(Event::More),
        consumed: piece.len(),
        reader: state,
    }
}

// Text bytes of a piece of so many bytes, or the frame's end.
#[tactic(auto, unfolding(crate::specs::Feed::text_fed, crate::specs::State::reader_of))]
fn text_fed(left: usize, size: usize) -> Fed
    ensures { fed_in result ≡ text_fed left size }
{
    if left == 0 {
        return Fed {
            event: Ok(Event::End),
            consumed: 0,
            reader: fresh_reader(),
        };
    }
    if size == 0 {
        return Fed {
            event: Ok(Event::More),
            consumed: 0,
            reader: bare(left, Phase::Text),
        };
    }
    let n = left.min(size);
    Fed {
        event: Ok(Event::Text(n)),
        consumed: n,
        reader: bare(left - n, Phase::Text),
    }
}

/// A piece more, perhaps empty: what it reached first.
#[inline(always)]
pub fn feed(r: FrameReader, piece: &[u8]) -> Fed
    ensures { fed_in result ≡ fed_of r piece.now }
{
    if !allows_state(r) {
        return Fed {
            event: Err(Refusal::BrokenState),
            consumed: 0,
            reader: r,
        };
    }
    match r.phase {
        Phase::Head => eat_head(r, piece),
        Phase::Text => text_fed(r.left, piece.len()),
        Phase::Refused(number) => refused(refusal_of(number), 0),
    }
}

/// Whether the stream may end here, and not inside a frame; a refused reader repeats its refusal.
pub fn end(r: FrameReader) -> Result<(), Refusal>
    ensures { number_in result ≡ end_of r }
{
    if !allows_state(r) {
        return Err(Refusal::BrokenState);
    }
    match r.phase {
        Phase::Head if 0 < r.count => Err(Refusal::InsideFrame),
        Phase::Text if 0 < r.left => Err(Refusal::InsideFrame),
        Phase::Refused(number) => Err(refusal_of(number)),
        _ => Ok(()),
    }
}
