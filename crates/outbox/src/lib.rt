// Messages to send wait in outboxes: frames lie end to end from place 0, as far as the used count goes.
// An outbox is lent bytes and a used count, whatever they are: a host keeps both, in fixed memory.
#![tactic(auto)]

ghost use Rattle.std.specs.Prelude.{◌≡◌, true, ◌-◌, ◌≤◌, ◌<◌, length, take, IfOk};
ghost use Rattle.refusal.specs.Answer.{number_in, counted_in};
ghost use Rattle.outbox.specs.Dropped.{dropped_in};
ghost use Rattle.outbox.specs.Outbox.{frame_number, front, front_size, size_there, whole_from, holds, append_of, append_after};
ghost use Rattle.outbox.specs.Outbox.{next_number, next_of, size_of, moved, drop_of, control_after, data_after};

use refusal::Refusal;

// Whether append takes these bytes as a frame.
#[tactic(auto, unfolding(crate::specs::Outbox::frame_number))]
fn judge_frame(f: &[u8]) -> Result<(), Refusal>
    ensures { number_in result ≡ frame_number f.now }
{
    if f.len() < 4 {
        return Err(Refusal::InsideFrame);
    }
    let n = frame::length_in(f);
    frame::judge_length(n)?;
    if f.len() != 4 + n {
        return Err(Refusal::InsideFrame);
    }
    frame::judge_kind(f[9], n)
}

// The size of the frame at the front, if there is one that append takes.
fn front_size(s: &[u8]) -> Option<usize>
    ensures { result ≡ size_there (front_size s.now) }
{
    let size = 4 + frame::length_in(s);
    if size <= s.len() && judge_frame(&s[..size]).is_ok() {
        Some(size)
    } else {
        None
    }
}

// Whether bytes are whole frames end to end: each size is known from the bytes behind the last.
fn whole(s: &[u8]) -> bool
    ensures { result ≡ whole_from 0 s.now }
{
    let mut rest = s;
    while let Some(size) = front_size(rest) {
        rest = &rest[size..];
    }
    rest.is_empty()
}

// Whether the used bytes of an outbox are whole frames that append takes.
#[tactic(auto, unfolding(crate::specs::Outbox::holds))]
fn is_whole(s: &[u8], used: usize) -> bool
    ensures { result ≡ holds s.now used }
{
    used <= s.len() && whole(&s[..used])
}

/// Copies a frame behind the used bytes of an outbox, and answers the used count then.
pub fn append(outbox: &mut [u8], used: usize, frame: &[u8]) -> Result<usize, Refusal>
    ensures { (counted_in result ≡ append_of outbox.old used frame.now)
        × (outbox.new ≡ append_after (counted_in result) outbox.old used frame.now) }
{
    if !is_whole(outbox, used) {
        return Err(Refusal::NotWholeFrames);
    }
    judge_frame(frame)?;
    if outbox.len() - used < frame.len() {
        return Err(Refusal::NoRoom);
    }
    let end = used + frame.len();
    outbox[used..end].copy_from_slice(frame);
    Ok(end)
}

// Whether two outboxes have a next message.
#[tactic(auto, unfolding(crate::specs::Outbox::next_number))]
fn judge_next(control: &[u8], cused: usize, data: &[u8], dused: usize) -> Result<(), Refusal>
    ensures { number_in result ≡ next_number control.now cused «data».now dused }
{
    if !is_whole(control, cused) || !is_whole(data, dused) {
        return Err(Refusal::NotWholeFrames);
    }
    if cused == 0 && dused == 0 {
        return Err(Refusal::BothEmpty);
    }
    Ok(())
}

// The first frame of an outbox's used bytes, which are whole frames and some.
fn first(s: &[u8], used: usize) -> &[u8]
    requires { (holds s.now used ≡ true) × (0 < used) }
    ensures { result.now ≡ front (take used s.now) }
{
    let size = 4 + frame::length_in(&s[..used]);
    &s[..size]
}

/// The next message as a part of one of two outboxes, control unless it is empty.
pub fn next<'a>(
    control: &'a [u8],
    cused: usize,
    data: &'a [u8],
    dused: usize,
) -> Result<&'a [u8], Refusal>
    ensures { (number_in result ≡ next_number control.now cused «data».now dused)
        × IfOk result (λ part. part.now ≡ next_of control.now cused «data».now dused) }
{
    judge_next(control, cused, data, dused)?;
    if cused == 0 {
        Ok(first(data, dused))
    } else {
        Ok(first(control, cused))
    }
}

// Moves the bytes from size up to used down to place 0, and sets what they leave to 00.
fn move_down(s: &mut [u8], size: usize, used: usize)
    requires { (size ≤ used) × (used ≤ length s.old) }
    ensures { s.new ≡ moved s.old size used }
{
    s.copy_within(size..used, 0);
    s[used - size..used].fill(0);
}

// Drops the first frame of an outbox's used bytes, which are whole frames and some, and answers the used count then.
fn drop_first(s: &mut [u8], used: usize) -> usize
    requires { (holds s.old used ≡ true) × (0 < used) }
    ensures { (result ≡ used - size_of s.old used) × (s.new ≡ moved s.old (size_of s.old used) used) }
{
    let size = 4 + frame::length_in(&s[..used]);
    move_down(s, size, used);
    used - size
}

/// Which outbox a message was dropped from, with its used count then.
#[derive(Clone, Copy, Debug, PartialEq, Eq)]
pub enum Dropped {
    Control(usize),
    Data(usize),
}

/// Drops the next message of two outboxes.
pub fn drop_next(
    control: &mut [u8],
    cused: usize,
    data: &mut [u8],
    dused: usize,
) -> Result<Dropped, Refusal>
    ensures { (dropped_in result ≡ drop_of control.old cused «data».old dused)
        × (control.new ≡ control_after (dropped_in result) control.old cused)
        × («data».new ≡ data_after (dropped_in result) «data».old dused) }
{
    judge_next(control, cused, data, dused)?;
    if cused == 0 {
        Ok(Dropped::Data(drop_first(data, dused)))
    } else {
        Ok(Dropped::Control(drop_first(control, cused)))
    }
}
