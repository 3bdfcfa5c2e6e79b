// Two books into one: the call. It counts first, and writes the third buffer once it knows that all will fit.
#![tactic(auto)]

ghost use Rattle.std.specs.Prelude.{◌≡◌, true, length};
ghost use Rattle.codec.specs.Lists.{eqs};
ghost use Rattle.device.specs.Calls.{is_image_size};
ghost use Rattle.image.specs.Image.{sound};
ghost use Rattle.image.specs.Table.{table};
ghost use Rattle.merge.specs.Tables.{merged, apart};
ghost use Rattle.merge.specs.Leaves.{leaf_pages, leaves_of};
ghost use Rattle.merge.specs.Calls.{store_leaves, merge_tables, merge_call};

use crate::books::{Book, Books};
use crate::leaves::{count_leaves, fill_indexes, fill_leaves, fill_node};
use device::{Cause, Refusal, is_image_size};
use image::calls::check;
use image::descent::root_of;
use image::format::put_blank;
use image::pages;
use image::tree::leaves_of;

pub mod books;
pub mod leaves;

// A place in a book: the record that comes next, by its leaf's place among the leaves, the leaf's page and its own slot there, with its key; or,
// where none comes, the end of all keys.
#[derive(Clone, Copy)]
pub struct Cursor {
    pub leaf: usize,
    pub page: usize,
    pub slot: usize,
    pub key: u64,
}

// A place in each of two books.
#[derive(Clone, Copy)]
pub struct Cursors {
    pub first: Cursor,
    pub second: Cursor,
}

// Writes the leaves and the pages above them, if there is room for so many: page 1 is an index page, or, over more than 28 leaves, a top page with index pages from page 2 on.
fn store_leaves(books: &Books<'_>, out: &mut [u8], leaves: usize) -> Result<(), Refusal>
    requires first_value { is_image_size (length out.old) ≡ true }
    requires second_value { (apart (table books.now.first.image.now) (table books.now.second.image.now) ≡ true) × (leaves ≡ length (leaves_of (merged (table books.now.first.image.now) (table books.now.second.image.now)))) }
    ensures value { result ≡ (store_leaves (leaves_of (merged (table books.now.first.image.now) (table books.now.second.image.now))) out.old).answer }
    ensures out_after { out.new ≡ (store_leaves (leaves_of (merged (table books.now.first.image.now) (table books.now.second.image.now))) out.old).work }
{
    let indexes = (leaves + 27) / 28;
    if 28 < indexes {
        return Err(Refusal::of(Cause::IndexFull));
    }
    let above = if leaves <= 28 { 1 } else { indexes + 1 };
    if out.len() / 1024 < above + leaves + 1 {
        return Err(Refusal::of(Cause::PagesOut));
    }
    put_blank(out);
    let mut seps = [0u64; 64];
    let seps = &mut seps[..leaves];
    fill_leaves(out, above + 1, seps, books);
    if leaves <= 28 {
        fill_node(&mut out[1024..2048], pages::INDEX, 1, seps, 2);
        return Ok(());
    }
    let mut tops = [0u64; 28];
    let tops = &mut tops[..indexes];
    fill_indexes(out, tops, seps, above + 1);
    fill_node(&mut out[1024..2048], pages::TOP, 1, tops, 2);
    Ok(())
}

// Merges two sound books, the leaves of which are on the pages `one` and `two`.
fn merge_books<'a>(
    first: &'a [u8],
    one: &'a [u8],
    second: &'a [u8],
    two: &'a [u8],
    out: &mut [u8],
) -> Result<(), Refusal>
    requires first_value { (sound first.now ≡ true) × (eqs one.now (leaf_pages first.now) ≡ true) }
    requires second_value { (sound second.now ≡ true) × (eqs two.now (leaf_pages second.now) ≡ true) }
    requires third_value { is_image_size (length out.old) ≡ true }
    ensures value { result ≡ (merge_tables (table first.now) (table second.now) out.old).answer }
    ensures out_after { out.new ≡ (merge_tables (table first.now) (table second.now) out.old).work }
{
    let books = Books {
        first: Book {
            image: first,
            leaves: one,
        },
        second: Book {
            image: second,
            leaves: two,
        },
    };
    let leaves = count_leaves(&books)?;
    store_leaves(&books, out, leaves)
}

// Merges two sound images: the leaves of each are gathered once.
fn merge_sound(first: &[u8], second: &[u8], out: &mut [u8]) -> Result<(), Refusal>
    requires { (sound first.now ≡ true) × (sound second.now ≡ true) × (is_image_size (length out.old) ≡ true) }
    ensures value { result ≡ (merge_tables (table first.now) (table second.now) out.old).answer }
    ensures out_after { out.new ≡ (merge_tables (table first.now) (table second.now) out.old).work }
{
    let one = leaves_of(first, root_of(first));
    let two = leaves_of(second, root_of(second));
    merge_books(
        first,
        &one.pages[..one.count],
        second,
        &two.pages[..two.count],
        out,
    )
}

// Writes the records of two images as one store into a third buffer, whatever it held.
pub fn merge(first: &[u8], second: &[u8], out: &mut [u8]) -> Result<(), Refusal>
    ensures value { result ≡ (merge_call first.now second.now out.old).answer }
    ensures out_after { out.new ≡ (merge_call first.now second.now out.old).work }
{
    if !is_image_size(out.len()) {
        return Err(Refusal::of(Cause::ImageSize));
    }
    check(first)?;
    check(second)?;
    merge_sound(first, second, out)
}
