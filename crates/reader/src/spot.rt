// What a byte makes of a reader, by what the byte is.

ghost use Rattle.std.specs.Prelude.{◌≡◌, ◌+◌, ◌*◌, ◌-◌, ◌^◌, ◌≤◌, ◌<◌};
ghost use Rattle.wire.specs.Longest.{longest};
ghost use Rattle.levels.specs.Levels.{Clean};

use super::{Phase, Reader, is_known};
use follow::Rest;
use item::Form;
use levels::Levels;
use refusal::Refusal;

// Where a byte is read, at an open level: the form, N, the bytes read with this one, and the levels.
#[derive(Clone, Copy)]
pub struct Spot {
    pub form: Form,
    pub size: usize,
    pub read: usize,
    pub levels: Levels,
    ghost within: { read ≤ size },
    ghost bounded: { size ≤ longest },
    ghost clean: { Clean levels },
    ghost inside: { 0 < levels.level },
}

impl Spot {
    ghost use Rattle.levels.specs.Levels.{stack};
    ghost use Rattle.refusal.specs.Number.{number_of};
    ghost use Rattle.reader.specs.State.{refused, reader_in, reader_of};
    ghost use Rattle.reader.specs.Step.{whole, content_from, at_format, at_list, at_plain, at_length, at_content};

    fn reader(self, levels: Levels, phase: Phase) -> Reader
        ensures { result ≡ reader_in self.form self.size self.read levels phase }
    {
        super::reader_in(self.form, self.size, self.read, levels, phase)
    }

    fn refused(self, refusal: Refusal) -> Reader
        ensures { result ≡ reader_of (refused self.form self.size (number_of refusal)) }
    {
        super::refused(self.form, self.size, refusal)
    }

    // What is left behind the byte, for what these levels await.
    fn rest(self, levels: Levels) -> Rest
        ensures { result ≡ record { form = self.form; bytes = self.size - self.read; levels = levels } }
    {
        Rest {
            form: self.form,
            bytes: self.size - self.read,
            levels,
        }
    }

    // An item is whole: the levels that await nothing are left.
    #[tactic(auto, using(levels::proofs::Laws::closed_clean))]
    fn whole(self) -> Reader
        ensures { result ≡ reader_of (whole self.form self.size self.read (stack self.levels)) }
    {
        self.reader(self.levels.closed(), Phase::Format)
    }

    // A content of v bytes begins, or is whole where there is none.
    pub fn content_from(self, code: u32, v: usize) -> Reader
        ensures { result ≡ reader_of (content_from self.form self.size self.read (stack self.levels) code v) }
    {
        if v == 0 {
            self.whole()
        } else {
            self.reader(self.levels, Phase::Content { code, left: v })
        }
    }

    #[tactic(auto, unfolding(crate::specs::Step::at_format), using(levels::proofs::Laws::begun_clean, levels::proofs::Laws::begun_stack))]
    pub fn at_format(self, b: u8) -> Reader
        ensures { result ≡ reader_of (at_format self.form self.size self.read (stack self.levels) b) }
    {
        let code = (b / 4) as u32;
        let count = (b % 4) as usize;
        if !is_known(code) {
            return self.refused(Refusal::UnknownCode);
        }
        if count == 0 {
            return self.refused(Refusal::NoLengthBytes);
        }
        let begun = self.levels.begun();
        if self.rest(begun).fits_lengths(code, count, 0) {
            self.reader(
                begun,
                Phase::Length {
                    code,
                    left: count,
                    value: 0,
                },
            )
        } else {
            self.refused(Refusal::NoSuchText)
        }
    }

    // Behind the last length byte of a list of so many members.
    #[tactic(auto, unfolding(crate::specs::Step::at_list), using(crate::proofs::Bytes::opened))]
    fn at_list(self, members: usize) -> Reader
        requires { members < 256 ^ 3 }
        ensures { result ≡ reader_of (at_list self.form self.size self.read (stack self.levels) members) }
    {
        if members == 0 {
            return if self.rest(self.levels).fits_items() {
                self.whole()
            } else {
                self.refused(Refusal::NoSuchText)
            };
        }
        if self.levels.level == 16 {
            return self.refused(Refusal::TooDeep);
        }
        let opened = self.levels.opened(members as u32);
        if self.rest(opened).fits_items() {
            self.reader(opened, Phase::Format)
        } else {
            self.refused(Refusal::NoSuchText)
        }
    }

    // Behind the last length byte of another item of length v.
    #[tactic(auto, unfolding(crate::specs::Step::at_plain))]
    fn at_plain(self, code: u32, v: usize) -> Reader
        ensures { result ≡ reader_of (at_plain self.form self.size self.read (stack self.levels) code v) }
    {
        if !item::is_allowed(code, v) {
            return self.refused(Refusal::WrongLength);
        }
        let left = self.size - self.read;
        if left < v {
            return self.refused(Refusal::NoSuchText);
        }
        let behind = Rest {
            bytes: left - v,
            ..self.rest(self.levels)
        };
        if behind.fits_items() {
            self.content_from(code, v)
        } else {
            self.refused(Refusal::NoSuchText)
        }
    }

    // Behind a length byte, with so many to come; the length so far is v.
    #[tactic(auto, unfolding(crate::specs::Step::at_length))]
    pub fn at_length(self, code: u32, left: usize, v: usize) -> Reader
        requires { v < 256 ^ 3 }
        ensures { result ≡ reader_of (at_length self.form self.size self.read (stack self.levels) code left v) }
    {
        if left == 0 {
            return if code == item::L {
                self.at_list(v)
            } else {
                self.at_plain(code, v)
            };
        }
        if follow::may_lead(self.form, v) && self.rest(self.levels).fits_lengths(code, left, v) {
            self.reader(
                self.levels,
                Phase::Length {
                    code,
                    left,
                    value: v,
                },
            )
        } else {
            self.refused(Refusal::NoSuchText)
        }
    }

    // At a content byte, the first of so many.
    #[tactic(auto, unfolding(crate::specs::Step::at_content))]
    pub fn at_content(self, code: u32, left: usize, b: u8) -> Reader
        requires { 0 < left }
        ensures { result ≡ reader_of (at_content self.form self.size self.read (stack self.levels) code left b) }
    {
        if b <= item::limit_byte(self.form, code) {
            self.content_from(code, left - 1)
        } else {
            self.refused(Refusal::WrongByte)
        }
    }
}
