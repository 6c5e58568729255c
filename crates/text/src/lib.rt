// A whole text judged, its rows read into a table, and a row's content as a part of the text.
#![tactic(auto)]

ghost use Rattle.std.specs.Prelude.{◌≡◌, ◌+◌, ◌*◌, ◌≤◌, IfOk, length, get_or, drop};
ghost use Rattle.std.proofs.lemmas.List.Edits.{sets};
ghost use Rattle.refusal.specs.Answer.{number_in, counted_in};
ghost use Rattle.rows.specs.Row.{size_of, table_of};
ghost use Rattle.rows.specs.Rows.{row_at, rows_in};
ghost use Rattle.rows.specs.Asked.{Sound};
ghost use Rattle.text.specs.Text.{judged_as, judged_of, measured_of, read_of, table_after, part_number, part_of};
ghost use Rattle.text.specs.Measured.{measured_in};
ghost use Rattle.text.specs.Asked.{HeaderAt};

use item::{Form, Kind};
use reader::Progress;
use refusal::Refusal;
use rows::Row;

/// Whether a text is one of a form: what the fed reader answers of it, told the form, with N the text's length.
#[tactic(auto, unfolding(crate::specs::Text::judged_as))]
pub fn judge_as(form: Form, text: &[u8]) -> Result<(), Refusal>
    ensures { number_in result ≡ judged_as form text.now }
{
    match reader::feed(reader::fresh_reader(form, text.len()), text).answer? {
        Progress::Complete => Ok(()),
        // a whole text is complete or refused
        Progress::More => Err(Refusal::NoSuchText),
    }
}

/// Whether a text is good.
pub fn judge(text: &[u8]) -> Result<(), Refusal>
    ensures { number_in result ≡ judged_of text.now }
{
    judge_as(Form::Good, text)
}

// The row whose format byte stands at place p.
fn row_at(text: &[u8], p: usize) -> Row
    requires { HeaderAt text.now p }
    ensures { result ≡ row_at p (get_or text.now p 0) (drop (p + 1) text.now) }
{
    let format = text[p];
    let from = p + 1;
    let to = from + usize::from(format % 4);
    Row {
        code: u32::from(format / 4),
        length: wire::number(&text[from..to]) as u32,
        place: to as u32,
    }
}

/// What must be lent for a text: how many rows it has, and how many bytes its lean form.
#[derive(Clone, Copy, Debug, PartialEq, Eq)]
pub struct Room {
    pub rows: usize,
    pub bytes: usize,
}

// This walk and that of `fill` go from row to row by the place behind each row's own bytes, which no iterator of std does.
fn measure_good(text: &[u8]) -> Room
    requires { Sound text.now }
    ensures rows { result.rows ≡ length (rows_in text.now) }
    ensures bytes { result.bytes ≡ size_of (rows_in text.now) }
{
    let mut p: usize = 0;
    let mut rows: usize = 0;
    let mut bytes: usize = 0;
    while p < text.len() {
        let row = row_at(text, p);
        rows += 1;
        bytes += row.lean_size();
        p = row.place as usize + row.content_size();
    }
    Room { rows, bytes }
}

/// What must be lent to read a text and to write its lean form.
#[tactic(auto, unfolding(crate::specs::Text::measured_of))]
pub fn measure(text: &[u8]) -> Result<Room, Refusal>
    ensures { measured_in result ≡ measured_of text.now }
{
    judge(text)?;
    Ok(measure_good(text))
}

// Writes the rows of a good text into a table that has room for them.
fn fill(text: &[u8], table: &mut [u32])
    requires sound { Sound text.now }
    requires text_in_bounds { 3 * length (rows_in text.now) ≤ length table.old }
    ensures { table.new ≡ sets table.old 0 (table_of (rows_in text.now)) }
{
    let mut p: usize = 0;
    let mut i: usize = 0;
    while p < text.len() {
        let row = row_at(text, p);
        table[i..i + 3].copy_from_slice(&<[u32; 3]>::from(row));
        i += 3;
        p = row.place as usize + row.content_size();
    }
}

/// Reads a whole text into a table of rows, three numbers a row, and answers how many rows.
pub fn read(text: &[u8], table: &mut [u32]) -> Result<usize, Refusal>
    ensures answer { counted_in result ≡ read_of text.now (length table.old) }
    ensures table { table.new ≡ table_after (counted_in result) text.now table.old }
{
    let rows = measure(text)?.rows;
    if table.len() < 3 * rows {
        return Err(Refusal::ShortTable);
    }
    fill(text, table);
    Ok(rows)
}

/// The content of a row that is no list, as a part of the text.
#[tactic(auto, unfolding(crate::specs::Text::part_number, crate::specs::Text::part_of))]
pub fn part(text: &[u8], row: Row) -> Result<&[u8], Refusal>
    ensures number { number_in result ≡ part_number text.now row }
    ensures part { IfOk result (λ part. part.now ≡ part_of text.now row) }
{
    match item::kind_of(row.code) {
        Kind::Unknown => Err(Refusal::UnknownCode),
        Kind::List => Err(Refusal::IsList),
        Kind::Plain(_) => row.part_of(text).ok_or(Refusal::OutsideContent),
    }
}
