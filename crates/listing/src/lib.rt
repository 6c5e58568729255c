// A captured stream as lines in a lent output.
#![tactic(auto)]

ghost use Rattle.std.specs.Prelude.{◌+◌, ◌≤◌, ◌≡◌, length};
ghost use Rattle.std.proofs.lemmas.List.Edits.{sets};
ghost use Rattle.lines.specs.Text.{line_text};
ghost use Rattle.listing.specs.Listing.{lines_of};
ghost use Rattle.listing.specs.Piece.{run, listed_by};

use capture::{Lister, Told};
use lines::Line;

// The bytes that one byte of a stream may print: at most two lines.
const ROOM: usize = 320;

/// The lister after a piece, the bytes of it that it consumed, and the bytes of the output that it used.
#[derive(Clone, Copy)]
pub struct Listed {
    pub lister: Lister,
    pub consumed: usize,
    pub used: usize,
}

// Puts a line at a place, and answers the place behind it.
fn put_line(out: &mut [u8], at: usize, line: Option<Line>) -> usize
    requires { at + length (line_text line) ≤ length out.old }
    ensures { (result ≡ at + length (line_text line)) × (out.new ≡ sets out.old at (line_text line)) }
{
    // most bytes give no line
    if line.is_none() {
        return at;
    }
    let mut text = [0u8; 160];
    let n = lines::print(line, &mut text);
    let end = at + n;
    wire::copy(&mut out[at..end], &text[..n]);
    end
}

// Puts the lines that a byte gives.
fn put_told(out: &mut [u8], at: usize, t: Told) -> usize
    requires { at + length (lines_of t) ≤ length out.old }
    ensures { (result ≡ at + length (lines_of t)) × (out.new ≡ sets out.old at (lines_of t)) }
{
    let a = put_line(out, at, t.first);
    put_line(out, a, t.second)
}

/// A piece of the stream is listed at the start of the output, while there is room for what a byte may print.
pub fn list(l: Lister, piece: &[u8], out: &mut [u8]) -> Listed
    ensures { (result ≡ listed_by (run l (length out.old) piece.now)) × (out.new ≡ sets out.old 0 (run l (length out.old) piece.now).lines) }
{
    let mut state = l;
    let mut at: usize = 0;
    for (i, b) in piece.iter().enumerate() {
        if out.len() - at < ROOM {
            return Listed {
                lister: state,
                consumed: i,
                used: at,
            };
        }
        let t = capture::byte_came(state, *b);
        state = t.lister;
        at = put_told(out, at, t);
    }
    Listed {
        lister: state,
        consumed: piece.len(),
        used: at,
    }
}
