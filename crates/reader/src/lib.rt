// The fed reader, for good texts or for lean ones: pieces in, more, complete or a refusal out.
#![tactic(auto)]

ghost use Rattle.std.specs.Prelude.{◌≡◌, true, ◌+◌, ◌*◌, ◌-◌, ◌^◌, ◌≤◌, ◌<◌, length, ℕ, slice_index};
ghost use Rattle.levels.specs.Levels.{stack};
ghost use Rattle.refusal.specs.Number.{number_of};
ghost use Rattle.reader.specs.Answer.{Answer, answer_in, fed_in, found_in, reached_in};
ghost use Rattle.reader.specs.State.{state, refused, fresh, state_of, reader_in, reader_of};
ghost use Rattle.reader.specs.Step.{known, step};
ghost use Rattle.reader.specs.Feed.{refusal_number, levels_in, allows_phase, allows_at, allows, status, status_of, eat, fed_of};
ghost use Rattle.reader.specs.Items.{shown, seek, next_of};
ghost use Rattle.reader.specs.Asked.{Placed, Spotted, Ready, On, Low, opening_at, Turned};
ghost use Rattle.item.specs.Code.{kind_of, is_plain};
ghost use Rattle.item.specs.Item.{limit};

mod spot;

use follow::Rest;
use item::{Form, Kind};
use levels::Levels;
use refusal::Refusal;
use spot::Spot;
use wire::LONGEST;

/// What the next byte is. At least one length byte, or one content byte, is left in Length and Content.
// Any number may stand in Refused: a host passes any state, and one that breaks the list of docs/STATES.md is refused with 14.
#[derive(Clone, Copy)]
pub enum Phase {
    Format,
    Length {
        code: u32,
        left: usize,
        value: usize,
    },
    Content {
        code: u32,
        left: usize,
    },
    Refused(u32),
}

/// The form that is asked for, N, the bytes read, and awaited[d - 1] the items still awaited at depth d, the innermost open depth being level.
#[derive(Clone, Copy)]
pub struct Reader {
    pub form: Form,
    pub size: usize,
    pub read: usize,
    pub level: usize,
    pub awaited: [u32; 16],
    pub phase: Phase,
}

/// What a feed answers that is not refused: more is awaited, or the text is complete.
#[derive(Clone, Copy, Debug, PartialEq, Eq)]
pub enum Progress {
    More,
    Complete,
}

/// What a feed answers, the bytes of the piece that it consumed, and the reader after it.
#[derive(Clone, Copy)]
pub struct Fed {
    pub answer: Result<Progress, Refusal>,
    pub consumed: usize,
    pub reader: Reader,
}

/// The item that a byte shows, as the last of its length bytes.
#[derive(Clone, Copy, Debug, PartialEq, Eq)]
pub struct Item {
    pub depth: usize,
    pub code: u32,
    pub length: usize,
}

/// What was found, what a feed of the bytes consumed answers, how many they are, and the reader after them.
#[derive(Clone, Copy)]
pub struct Reached {
    pub found: Option<Item>,
    pub answer: Result<Progress, Refusal>,
    pub consumed: usize,
    pub reader: Reader,
}

// The reader behind the bytes of a piece that are taken at once, and how many they are. That it is on (`On`) stays a clause of the five
// functions below, and no field of a type of its own: `Reader` is public, and any value of it may be passed.
#[derive(Clone, Copy)]
struct Taken {
    reader: Reader,
    used: usize,
}

#[tactic(auto, unfolding(crate::specs::Step::known))]
fn is_known(c: u32) -> bool
    ensures { result ≡ known c }
{
    !matches!(item::kind_of(c), Kind::Unknown)
}

fn is_plain(c: u32) -> bool
    ensures { result ≡ is_plain (kind_of c) }
{
    matches!(item::kind_of(c), Kind::Plain(_))
}

fn reader_in(form: Form, n: usize, k: usize, l: Levels, phase: Phase) -> Reader
    ensures { result ≡ reader_in form n k l phase }
{
    let awaited = l.awaited;
    Reader {
        form,
        size: n,
        read: k,
        level: l.level,
        awaited,
        phase,
    }
}

// A refused reader keeps the form, N and its number, all else zero.
fn refused(form: Form, n: usize, refusal: Refusal) -> Reader
    ensures { result ≡ reader_of (refused form n (number_of refusal)) }
{
    reader_in(form, n, 0, Levels::none(), Phase::Refused(refusal.into()))
}

fn levels_in(r: Reader) -> Levels
    ensures { result ≡ levels_in r }
{
    let awaited = r.awaited;
    Levels {
        awaited,
        level: r.level,
    }
}

// The spot so many bytes further.
fn spot_behind(r: Reader, m: usize) -> Spot
    requires { Spotted r.size (r.read + m) (levels_in r) }
    ensures same_form { result.form ≡ r.form }
    ensures same_size { result.size ≡ r.size }
    ensures further { result.read ≡ r.read + m }
    ensures same_levels { result.levels ≡ levels_in r }
{
    Spot {
        form: r.form,
        size: r.size,
        read: r.read + m,
        levels: levels_in(r),
    }
}

// One byte more.
fn step_byte(r: Reader, b: u8) -> Reader
    requires { Ready r }
    ensures { result ≡ reader_of (step (state_of r) b) }
{
    let spot = spot_behind(r, 1);
    match r.phase {
        Phase::Format => spot.at_format(b),
        Phase::Length { code, left, value } => spot.at_length(
            code,
            left - 1,
            value * 256 + b as usize,
        ),
        Phase::Content { code, left } => spot.at_content(code, left, b),
        Phase::Refused(_) => r,
    }
}

// The refusal that a refused reader keeps.
#[cold]
#[inline(never)]
fn refusal_in(number: u32) -> Refusal
    requires { refusal_number number ≡ true }
    ensures { number_of result ≡ number }
{
    match Refusal::try_from(number) {
        Ok(refusal) => refusal,
        // never met; an answer and no trap, so that a compiler sees that a feed has no effect
        Err(_) => Refusal::BrokenState,
    }
}

// What a reader that the list allows answers, by its phase.
#[inline(always)]
#[tactic(auto, using(crate::proofs::Answered::by_phase))]
fn status_in(r: Reader) -> Result<Progress, Refusal>
    requires { allows r ≡ true }
    ensures { answer_in result ≡ status (state_of r) }
{
    match r.phase {
        Phase::Format if r.level == 0 => Ok(Progress::Complete),
        Phase::Format | Phase::Length { .. } | Phase::Content { .. } => Ok(Progress::More),
        Phase::Refused(number) => Err(refusal_in(number)),
    }
}

// Of a refused reader all but its number is zero; any other has N, the bytes read and the levels within bounds.
#[tactic(auto, using(crate::proofs::Listed::at_going, crate::proofs::Listed::at_refused))]
fn allows_at(r: Reader) -> bool
    ensures { result ≡ allows_at r.phase r }
{
    match r.phase {
        Phase::Refused(_) => r.read == 0 && r.level == 0 && levels_in(r).is_clean(),
        _ => r.size <= LONGEST && r.read <= r.size && levels_in(r).is_clean(),
    }
}

// What the phase asks, with so many bytes left.
#[tactic(auto, using(crate::proofs::Listed::phase_allowed))]
fn allows_phase(r: Reader) -> bool
    requires { Placed r }
    ensures { result ≡ allows_phase r.form r.phase (r.size - r.read) (stack (levels_in r)) }
{
    let l = levels_in(r);
    let rest = Rest {
        form: r.form,
        bytes: r.size - r.read,
        levels: l,
    };
    match r.phase {
        Phase::Format => (l.level == 0 || 0 < l.top()) && rest.fits_items(),
        Phase::Length { code, left, value } => {
            0 < l.level
                && is_known(code)
                && 0 < left
                && left <= 3
                && follow::high_part(value, 3 - left) == 0
                && rest.fits_lengths(code, left, value)
        }
        Phase::Content { code, left } => {
            0 < l.level
                && is_plain(code)
                && 0 < left
                && left <= rest.bytes
                && Rest {
                    bytes: rest.bytes - left,
                    ..rest
                }
                .fits_items()
        }
        Phase::Refused(number) => matches!(number, 1..=6),
    }
}

/// The state does not break the list of docs/STATES.md.
#[tactic(auto, unfolding(crate::specs::Feed::allows))]
pub fn allows_state(r: Reader) -> bool
    ensures { result ≡ allows r }
{
    allows_at(r) && allows_phase(r)
}

// ---- a turn of the loops over a piece: one byte, or content bytes at once

// How many bytes stand before the first above a limit.
fn low_bytes(run: &[u8], limit: u8) -> usize
    ensures within { result ≤ length run.now }
    ensures low { (j : ℕ) → j < result → slice_index run.now j ≤ limit }
{
    run.iter().position(|b| limit < *b).unwrap_or(run.len())
}

// How many bytes of a content with so many left stand in a piece from a place on, before one above the limit.
fn content_run(form: Form, code: u32, left: usize, piece: &[u8], from: usize) -> usize
    requires { from ≤ length piece.now }
    ensures { (result ≤ left) × (from + result ≤ length piece.now) × Low (limit form code) piece.now from result }
{
    let m = left.min(piece.len() - from);
    let most = item::limit_byte(form, code);
    if most == 0xFF {
        m
    } else {
        low_bytes(&piece[from..from + m], most)
    }
}

fn byte_taken(r: Reader, piece: &[u8], from: usize) -> Taken
    requires on { On r }
    requires from_in_bounds { from < length piece.now }
    ensures { Turned r piece.now from result.reader result.used }
{
    Taken {
        reader: step_byte(r, piece[from]),
        used: 1,
    }
}

// A byte above the limit is in no run: it is taken alone, and refused as any other byte is.
fn content_taken(r: Reader, code: u32, left: usize, piece: &[u8], from: usize) -> Taken
    requires on { On r }
    requires phase_value { r.phase ≡ Phase.Content code left }
    requires from_in_bounds { from < length piece.now }
    ensures { Turned r piece.now from result.reader result.used }
{
    let m = content_run(r.form, code, left, piece, from);
    if m == 0 {
        return byte_taken(r, piece, from);
    }
    Taken {
        reader: spot_behind(r, m).content_from(code, left - m),
        used: m,
    }
}

fn turn(r: Reader, piece: &[u8], from: usize) -> Taken
    requires on { On r }
    requires from_in_bounds { from < length piece.now }
    ensures { Turned r piece.now from result.reader result.used }
{
    match r.phase {
        Phase::Content { code, left } => content_taken(r, code, left, piece, from),
        _ => byte_taken(r, piece, from),
    }
}

fn eat_all(r: Reader, piece: &[u8]) -> Fed
    requires { On r }
    ensures { fed_in result ≡ eat (state_of r) 0 piece.now }
{
    let mut reader = r;
    for (i, &byte) in piece.iter().enumerate() {
        reader = step_byte(reader, byte);
        let answer = status_in(reader);
        if answer != Ok(Progress::More) {
            return Fed {
                answer,
                consumed: i + 1,
                reader,
            };
        }
    }
    Fed {
        answer: Ok(Progress::More),
        consumed: piece.len(),
        reader,
    }
}

/// What a reader that is fed nothing more answers; BrokenState first.
#[inline(always)]
#[tactic(auto, unfolding(crate::specs::Feed::status_of))]
pub fn status_of(r: Reader) -> Result<Progress, Refusal>
    ensures { answer_in result ≡ status_of r }
{
    if allows_state(r) {
        status_in(r)
    } else {
        Err(Refusal::BrokenState)
    }
}

// What a reader answers before it reads a piece; once complete it takes an empty one alone.
#[inline(always)]
fn opening(r: Reader, piece: &[u8]) -> Result<Progress, Refusal>
    ensures { answer_in result ≡ opening_at (Rattle.reader.specs.Feed.status_of r) piece.now }
{
    let progress = status_of(r)?;
    if progress == Progress::Complete && !piece.is_empty() {
        return Err(Refusal::BehindComplete);
    }
    Ok(progress)
}

/// A piece more, perhaps empty.
pub fn feed(r: Reader, piece: &[u8]) -> Fed
    ensures { fed_in result ≡ fed_of r piece.now }
{
    let answer = opening(r, piece);
    if answer == Ok(Progress::More) {
        return eat_all(r, piece);
    }
    Fed {
        answer,
        consumed: 0,
        reader: r,
    }
}

// ---- the next item

// The item whose last length byte is the next byte.
#[tactic(auto, using(crate::proofs::Answered::shown_early, crate::proofs::Answered::shown_last, crate::proofs::Answered::shown_none))]
fn shown_by(r: Reader, b: u8) -> Option<Item>
    requires { Ready r }
    ensures { found_in result ≡ shown (state_of r) b }
{
    match r.phase {
        Phase::Length { code, left, value } => if 1 < left {
            None
        } else {
            Some(Item {
                depth: r.level,
                code,
                length: value * 256 + b as usize,
            })
        },
        _ => None,
    }
}

fn seek_item(r: Reader, piece: &[u8]) -> Reached
    requires { On r }
    ensures { reached_in result ≡ seek (state_of r) 0 piece.now }
{
    let mut reader = r;
    let mut i = 0;
    // a turn takes one byte or a run of them, so a `for` over the piece is no plainer
    while i < piece.len() {
        let shown = shown_by(reader, piece[i]);
        let t = turn(reader, piece, i);
        reader = t.reader;
        i += t.used;
        let answer = status_in(reader);
        if shown.is_some() || answer != Ok(Progress::More) {
            // a byte that is refused shows no item
            return Reached {
                found: answer.ok().and(shown),
                answer,
                consumed: i,
                reader,
            };
        }
    }
    Reached {
        found: None,
        answer: Ok(Progress::More),
        consumed: i,
        reader,
    }
}

/// A piece more, through the last length byte of the next item; where none is met, all of it, as a feed.
pub fn next_item(r: Reader, piece: &[u8]) -> Reached
    ensures { reached_in result ≡ next_of r piece.now }
{
    let answer = opening(r, piece);
    if answer == Ok(Progress::More) {
        return seek_item(r, piece);
    }
    Reached {
        found: None,
        answer,
        consumed: 0,
        reader: r,
    }
}

/// A reader that is told the form and N.
pub fn fresh_reader(form: Form, n: usize) -> Reader
    ensures { result ≡ reader_of (fresh form n) }
{
    if n == 0 {
        return reader_in(form, n, 0, Levels::none(), Phase::Format);
    }
    if n == 1 {
        return refused(form, n, Refusal::NoSuchText);
    }
    if LONGEST < n {
        return refused(form, n, Refusal::NoSuchText);
    }
    reader_in(form, n, 0, Levels::none().opened(1), Phase::Format)
}
