// Rows over a content written as their lean text, and a text as its lean form.
#![tactic(auto)]

ghost use Rattle.std.specs.Prelude.{◌≡◌, ◌+◌, ◌≤◌, ◌<◌, [], ◌∷◌, length, map, cond, eqb, MatchResult};
ghost use Rattle.std.proofs.lemmas.List.Edits.{sets};
ghost use Rattle.refusal.specs.Answer.{number_in, counted_in};
ghost use Rattle.refusal.specs.declared.Refusal.TheVariants.{LongText};
ghost use Rattle.wire.specs.Lent.{out_after};
ghost use Rattle.wire.specs.Lists.{Each};
ghost use Rattle.wire.specs.Longest.{longest};
ghost use Rattle.item.specs.Code.{L, BOOLEAN};
ghost use Rattle.item.specs.Item.{truth, told, lean_header};
ghost use Rattle.levels.specs.Levels.{stack, levels_of, Clean};
ghost use Rattle.rows.specs.Asked.{Fits};
ghost use Rattle.rows.specs.Row.{row_of, rows_of, row_text, text_of, size_of};
ghost use Rattle.rows.specs.Rows.{rows_in};
ghost use Rattle.writer.specs.Writing.{at_most, list_number, content_number, row_number, levels_behind, judged_from, table_number};
ghost use Rattle.writer.specs.Writing.{written_of, leaned_of, rows_after};

use item::Kind;
use levels::Levels;
use refusal::Refusal;
use rows::Row;
use wire::LONGEST;

// The rows of a table, three numbers each; fewer than three behind them are no row.
fn rows_of(table: &[u32]) -> &[[u32; 3]]
    ensures { map row_of result.now ≡ rows_of table.now }
{
    table.as_chunks::<3>().0
}

#[tactic(auto, using(crate::proofs::Judged::all_within))]
fn all_at_most(s: &[u8], largest: u8) -> bool
    ensures { result ≡ at_most largest s.now }
{
    s.iter().all(|byte| *byte <= largest)
}

#[tactic(auto, unfolding(crate::specs::Writing::content_number))]
fn judge_content(content: &[u8], row: Row) -> Result<(), Refusal>
    ensures { number_in result ≡ content_number content.now row }
{
    if !item::is_allowed(row.code, row.length as usize) {
        return Err(Refusal::WrongLength);
    }
    let part = row.part_of(content).ok_or(Refusal::OutsideContent)?;
    if all_at_most(part, item::largest_byte(row.code)) {
        Ok(())
    } else {
        Err(Refusal::WrongByte)
    }
}

#[tactic(auto, using(levels::proofs::Laws::stack_length))]
fn judge_list(l: Levels, row: Row) -> Result<(), Refusal>
    ensures { number_in result ≡ list_number (stack l) row }
{
    if row.length != 0 && l.level == 16 {
        Err(Refusal::TooDeep)
    } else {
        Ok(())
    }
}

// Whether a row is in order at the levels.
#[tactic(auto, using(crate::proofs::Judged::none_open, crate::proofs::Judged::some_open, levels::proofs::Laws::stack_length))]
fn judge_row(l: Levels, content: &[u8], row: Row) -> Result<(), Refusal>
    ensures { number_in result ≡ row_number content.now (stack l) row }
{
    if l.level == 0 {
        return Err(Refusal::NotOneItem);
    }
    match item::kind_of(row.code) {
        Kind::Unknown => Err(Refusal::UnknownCode),
        Kind::List => judge_list(l, row),
        Kind::Plain(_) => judge_content(content, row),
    }
}

// The levels behind a row.
fn levels_behind(l: Levels, row: Row) -> Levels
    requires clean { Clean l }
    requires in_order { row.code ≡ L → list_number (stack l) row ≡ 0 }
    ensures { result ≡ levels_of (levels_behind (stack l) row) }
{
    let low = l.begun();
    if row.code == item::L && row.length != 0 {
        low.opened(row.length)
    } else {
        low.closed()
    }
}

fn judge_rows(rows: &[[u32; 3]], content: &[u8]) -> Result<(), Refusal>
    ensures { number_in result ≡ judged_from content.now (1 ∷ []) (map row_of rows.now) }
{
    let mut l = Levels::none().opened(1);
    for numbers in rows {
        let row = Row::from(*numbers);
        judge_row(l, content, row)?;
        l = levels_behind(l, row);
    }
    if l.level == 0 {
        Ok(())
    } else {
        Err(Refusal::NotOneItem)
    }
}

// Whether a table's rows over a content are none, or one whole item.
#[tactic(auto, using(crate::proofs::Judged::some_rows, rows::proofs::Tables::rows_few), unfolding(crate::specs::Writing::table_number))]
fn judge_table(table: &[u32], content: &[u8]) -> Result<(), Refusal>
    ensures { number_in result ≡ table_number content.now table.now }
{
    if !table.len().is_multiple_of(3) {
        return Err(Refusal::NotOneItem);
    }
    if table.is_empty() {
        return Ok(());
    }
    judge_rows(rows_of(table), content)
}

// The bytes of the rows' lean text.
#[tactic(auto, using(rows::proofs::Tables::row_size_most, crate::proofs::Judged::sizes_from, crate::proofs::Judged::sizes_none))]
fn text_size(rows: &[[u32; 3]]) -> Result<usize, Refusal>
    ensures { MatchResult result (λ size. (size ≡ size_of (map row_of rows.now)) × (size ≤ longest))
        (λ e. (e ≡ LongText) × (longest < size_of (map row_of rows.now))) }
{
    let mut bytes: usize = 0;
    for numbers in rows {
        bytes += Row::from(*numbers).lean_size();
        if bytes > LONGEST {
            return Err(Refusal::LongText);
        }
    }
    Ok(bytes)
}

// Writes a row's format byte and its fewest length bytes, and answers the place behind them.
#[tactic(auto, using(rows::proofs::Tables::fewest_few, wire::proofs::Numbers::length_bytes))]
fn put_header(out: &mut [u8], at: usize, row: Row) -> usize
    requires room { at + length (lean_header row.code row.length) ≤ length out.old }
    requires small { row.code < 63 }
    ensures out { out.new ≡ sets out.old at (lean_header row.code row.length) }
    ensures behind { result ≡ at + length (lean_header row.code row.length) }
{
    let count = item::length_bytes(row.length);
    let to = at + 1 + count;
    out[at] = (row.code * 4 + count as u32) as u8;
    wire::put(&mut out[at + 1..to], u64::from(row.length));
    to
}

// A content byte in lean form.
fn lean_byte(code: u32, byte: u8) -> u8
    ensures { result ≡ cond (eqb code BOOLEAN) (truth byte) byte }
{
    if code == 0o11 && byte != 0 { 1 } else { byte }
}

// Writes a content in lean form.
fn put_content(out: &mut [u8], at: usize, code: u32, content: &[u8])
    requires { at + length content.now ≤ length out.old }
    ensures { out.new ≡ sets out.old at (told code content.now) }
{
    for (i, byte) in content.iter().enumerate() {
        out[at + i] = lean_byte(code, *byte);
    }
}

// Writes a row's lean text, and answers the place behind it.
fn put_row(out: &mut [u8], at: usize, content: &[u8], row: Row) -> usize
    requires fits { Fits content.now row }
    requires room { at + length (row_text content.now row) ≤ length out.old }
    ensures out { out.new ≡ sets out.old at (row_text content.now row) }
    ensures behind { result ≡ at + length (row_text content.now row) }
{
    let body = put_header(out, at, row);
    if row.code == item::L {
        return body;
    }
    let from = row.place as usize;
    let to = from + row.length as usize;
    put_content(out, body, row.code, &content[from..to]);
    body + row.length as usize
}

// Writes the rows' lean texts end to end from place 0.
fn put_rows(rows: &[[u32; 3]], content: &[u8], out: &mut [u8])
    requires each { Each (Fits content.now) (map row_of rows.now) }
    requires room { length (text_of content.now (map row_of rows.now)) ≤ length out.old }
    ensures { out.new ≡ sets out.old 0 (text_of content.now (map row_of rows.now)) }
{
    let mut at: usize = 0;
    for numbers in rows {
        at = put_row(out, at, content, Row::from(*numbers));
    }
}

/// Writes the lean text of rows over a content, and answers the bytes used.
#[tactic(auto, using(crate::proofs::OneItem::sized, crate::proofs::OneItem::table_fits), unfolding(crate::specs::Writing::written_of))]
pub fn write(table: &[u32], content: &[u8], out: &mut [u8]) -> Result<usize, Refusal>
    ensures answer { counted_in result ≡ written_of table.now content.now (length out.old) }
    ensures out { out.new ≡ out_after (counted_in result) (text_of content.now (rows_of table.now)) out.old }
{
    judge_table(table, content)?;
    let rows = rows_of(table);
    let size = text_size(rows)?;
    if out.len() < size {
        return Err(Refusal::ShortOutput);
    }
    put_rows(rows, content, out);
    Ok(size)
}

/// Reads a text into a table of rows and writes its lean form; answers the bytes used.
pub fn write_lean(text: &[u8], table: &mut [u32], out: &mut [u8]) -> Result<usize, Refusal>
    ensures answer { counted_in result ≡ leaned_of text.now (length table.old) (length out.old) }
    ensures table { table.new ≡ rows_after (counted_in result) text.now table.old }
    ensures out { out.new ≡ out_after (counted_in result) (text_of text.now (rows_in text.now)) out.old }
{
    let room = text::measure(text)?;
    if table.len() < 3 * room.rows {
        return Err(Refusal::ShortTable);
    }
    if out.len() < room.bytes {
        return Err(Refusal::ShortOutput);
    }
    text::read(text, table)?;
    write(&table[..3 * room.rows], text, out)
}
