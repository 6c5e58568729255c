// Which lines each byte of a captured stream gives, and its end.
#![tactic(auto)]

ghost use Rattle.std.specs.Prelude.{◌≡◌, true};
ghost use Rattle.refusal.specs.Number.{number_of};
ghost use Rattle.reader.specs.Feed.{allows};
ghost use Rattle.capture.specs.Capture.{told, one_more, fresh_lister, refused_by, item_at};
ghost use Rattle.capture.specs.Capture.{text_byte, is_data, header_came, settled, fed_byte, byte_told, last_line};

use frame::Header;
use frames::{Event, FrameReader};
use item::Form;
use lines::Line;
use reader::{Phase, Reader};
use refusal::Refusal;

// Two flags beside the readers, as the definitions have them: the text's reader stays as it is while no text is listed.
/// The readers of the stream's frames and of the text that comes, whether that text is listed, whether the listing has stopped, and the frames and bytes that
/// came.
#[derive(Clone, Copy)]
pub struct Lister {
    pub frames: FrameReader,
    pub text: Reader,
    pub listed: bool,
    pub stopped: bool,
    pub count: u64,
    pub bytes: u64,
}

/// The lister after a byte, and the lines that the byte gives.
#[derive(Clone, Copy)]
pub struct Told {
    pub lister: Lister,
    pub first: Option<Line>,
    pub second: Option<Line>,
}

fn told_of(lister: Lister, first: Option<Line>, second: Option<Line>) -> Told
    ensures { result ≡ told lister first second }
{
    Told {
        lister,
        first,
        second,
    }
}

fn stop(l: Lister) -> Lister
    ensures { result ≡ Rattle.capture.specs.Capture.stopped l }
{
    Lister { stopped: true, ..l }
}

/// A lister before a stream.
#[tactic(auto, unfolding(crate::specs::Capture::fresh_lister))]
pub fn fresh_lister() -> Lister
    ensures { result ≡ fresh_lister }
{
    Lister {
        frames: frames::fresh_reader(),
        text: reader::fresh_reader(Form::Good, 0),
        listed: false,
        stopped: false,
        count: 0,
        bytes: 0,
    }
}

fn one_more(n: u64) -> u64
    ensures { result ≡ one_more n }
{
    n.wrapping_add(1)
}

// ---- a byte

// X, behind which the listing has stopped.
#[tactic(auto, unfolding(crate::specs::Capture::refused_by))]
fn refuse(l: Lister, refusal: Refusal) -> Told
    ensures { result ≡ refused_by (number_of refusal) l }
{
    told_of(
        stop(l),
        Some(Line::Refusal(u32::from(refusal), l.bytes)),
        None,
    )
}

// I behind an item's last length byte.
fn item_came(text: Reader, b: u8) -> Option<Line>
    requires { allows text ≡ true }
    ensures { result ≡ item_at text.phase text.level b }
{
    match text.phase {
        Phase::Length { code, left, value } if left == 1 => Some(Line::Item(
            text.level,
            code,
            value * 256 + b as usize,
        )),
        _ => None,
    }
}

// A text byte is read where the text is listed.
fn text_byte(l: Lister, b: u8) -> Told
    ensures { result ≡ text_byte l b }
{
    if !l.listed {
        return told_of(l, None, None);
    }
    let fed = reader::feed(l.text, &[b]);
    let mut t = l;
    t.text = fed.reader;
    t.listed = true;
    match fed.answer {
        Ok(_) => told_of(t, item_came(l.text, b), None),
        Err(refusal) => refuse(t, refusal),
    }
}

#[tactic(auto, using(std::proofs::lemmas::Bool::Decides::nat_tests))]
fn is_data(h: Header) -> bool
    ensures { result ≡ is_data h }
{
    h.ptype == 0 && h.stype == 0
}

// M, and the text's reader, which may refuse before a byte.
fn header_came(l: Lister, h: Header, n: usize) -> Told
    ensures { result ≡ header_came l h n }
{
    let m = Some(Line::Message(h, n));
    if !is_data(h) {
        return told_of(Lister { listed: false, ..l }, m, None);
    }
    let text = reader::fresh_reader(Form::Good, n);
    let t = Lister {
        text,
        listed: true,
        ..l
    };
    match reader::status_of(text) {
        Ok(_) => told_of(t, m, None),
        Err(refusal) => told_of(stop(t), m, Some(Line::Refusal(u32::from(refusal), t.bytes))),
    }
}

// Behind a frame's last byte comes its end.
fn settle(mut l: Lister) -> Lister
    ensures { result ≡ settled l }
{
    // only behind the last byte of a text does a feed of none change anything
    match l.frames.phase {
        frames::Phase::Text => {}
        _ => return l,
    }
    if l.frames.left != 0 {
        return l;
    }
    let fed = frames::feed(l.frames, &[]);
    match fed.event {
        Ok(event) => match event {
            Event::End => {
                l.frames = fed.reader;
                l.count = one_more(l.count);
                l
            }
            _ => l,
        },
        Err(_) => l,
    }
}

fn feed_byte(l: Lister, b: u8) -> Told
    ensures { result ≡ fed_byte l b }
{
    let fed = frames::feed(l.frames, &[b]);
    let mut t = l;
    t.frames = fed.reader;
    t.bytes = one_more(l.bytes);
    match fed.event {
        Ok(event) => match event {
            Event::Header(h, n) => header_came(t, h, n),
            Event::Text(_) => text_byte(t, b),
            Event::More => told_of(t, None, None),
            Event::End => told_of(t, None, None),
        },
        Err(refusal) => refuse(t, refusal),
    }
}

/// One byte of the stream.
#[tactic(auto, unfolding(crate::specs::Capture::byte_told))]
pub fn byte_came(l: Lister, b: u8) -> Told
    ensures { result ≡ byte_told l b }
{
    if l.stopped {
        told_of(l, None, None)
    } else {
        feed_byte(settle(l), b)
    }
}

// ---- the end of the stream

/// The line behind the last byte.
pub fn last_line(l: Lister) -> Option<Line>
    ensures { result ≡ last_line l }
{
    if l.stopped {
        return None;
    }
    let s = settle(l);
    Some(match frames::end(s.frames) {
        Ok(()) => Line::End(s.count, s.bytes),
        Err(refusal) => Line::Refusal(u32::from(refusal), s.bytes),
    })
}
