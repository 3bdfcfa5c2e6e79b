// What is written: a row for each record by rising key, the last line, or the number of a bad line.
ghost use Rattle.std.specs.Prelude.{◌≡◌, true, Ok, Some, ◌<◌, IfOk, length};
ghost use Rattle.image.specs.Image.{sound};
ghost use Rattle.image.specs.Calls.{next_call};
ghost use Rattle.image.specs.Table.{listing};
ghost use Rattle.sheet.specs.Rows.{rows_of, RowAt, next_slot, rows_after, later, first_of};

use image::calls::{lookup, next_key};
use std::io;
use std::io::{Stdout, Write};

// A row: where a record stands, its key and its value's length.
#[derive(Clone, Copy, Default)]
struct Row {
    page: usize,
    slot: usize,
    key: u64,
    length: usize,
}

// The slot of a record on `page`, which comes after the row `last`.
#[tactic(auto, unfolding(crate::specs::Rows::next_slot))]
fn slot_after(page: usize, last: Row) -> usize
    requires { last.slot < usize.MAX }
    ensures { result ≡ next_slot page last.page last.slot }
{
    if page == last.page { last.slot + 1 } else { 0 }
}

// The row of the key that comes next after the row `last`.
fn row_of(image: &[u8], last: Row, key: u64) -> Option<Row>
    requires { (sound image.now ≡ true) × (last.slot < usize.MAX) × (next_call image.now last.key ≡ Ok (Some key)) }
    ensures { result ≡ first_of (rows_after last.page last.slot (later last.key (listing image.now))) }
{
    match lookup(image, key) {
        Ok(Some(value)) => {
            let page = (value.offset - 16) / 1024;
            Some(Row {
                page,
                slot: slot_after(page, last),
                key,
                length: value.length,
            })
        }
        Ok(None) => None,
        Err(_) => None,
    }
}

// The row after the row `last`. Before the first one, `last` has page 0 and key 0, which no record has.
fn row_after(image: &[u8], last: Row) -> Option<Row>
    requires { (sound image.now ≡ true) × (last.slot < usize.MAX) }
    ensures { result ≡ first_of (rows_after last.page last.slot (later last.key (listing image.now))) }
{
    match next_key(image, last.key) {
        Ok(Some(key)) => row_of(image, last, key),
        Ok(None) => None,
        Err(_) => None,
    }
}

// Prints row number i of the image's listing; image and i are there for the contract.
fn print_row(out: &mut Stdout, image: &[u8], i: u64, row: Row) -> io::Result<()>
    requires { RowAt image.now i row.page row.slot row.key row.length }
{
    let mut line = [0u8; 26];
    lines::put_row(&mut line, row.page, row.slot, row.key, row.length);
    out.write_all(&line)
}

// Prints the rows, and answers how many there are, unless a write fails. The walk goes by keys: the count is the answer, and no index.
fn print_rows(out: &mut Stdout, image: &[u8]) -> io::Result<u64>
    requires { sound image.now ≡ true }
    ensures { IfOk result (λ rows. rows ≡ length (rows_of image.now)) }
{
    let mut last = Row::default();
    let mut rows = 0;
    while let Some(row) = row_after(image, last) {
        print_row(out, image, rows, row)?;
        last = row;
        rows += 1;
    }
    Ok(rows)
}

// The rows, and the last line: records, accepted and refused transactions.
pub fn print(out: &mut Stdout, image: &[u8], accepted: u64, refused: u64) -> io::Result<()>
    requires { sound image.now ≡ true }
{
    let rows = print_rows(out, image)?;
    let mut last = [0u8; 25];
    lines::put_totals(&mut last, rows, accepted, refused);
    out.write_all(&last)
}

// "prints that line's number in 8 columns after the heading, and nothing more"
pub fn print_line_number(out: &mut Stdout, line: u64) -> io::Result<()> {
    let mut last = [0u8; 9];
    lines::put_line_number(&mut last, line);
    out.write_all(&last)
}
