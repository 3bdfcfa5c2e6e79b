// Two books, record by record, in key order.
ghost use Rattle.std.specs.Prelude.{◌≡◌, true, [], suc, ◌<◌, length, get_or, take, drop};
ghost use Rattle.codec.specs.Lists.{eqs};
ghost use Rattle.page.specs.Layout.{page_size, top_key, rec_of, size};
ghost use Rattle.page_edit.specs.Filling.{Room, Filled};
ghost use Rattle.image.specs.Image.{sound};
ghost use Rattle.image.specs.Table.{records_on, table};
ghost use Rattle.merge.specs.Tables.{merged, apart};
ghost use Rattle.merge.specs.Leaves.{leaf_pages};
ghost use Rattle.merge.specs.Cursors.{left_at, Stands, Ready, left_of, apart_at, Comes, Passed, takes_next};

use crate::leaves::takes;
use crate::{Cursor, Cursors};
use image::pages;
use page::header::Header;
use page_edit::append_copy;

// ---- one book

// A sound image, read as a book, with the pages of its leaves, which are gathered once: no page above them is read again. The places in it are no part of it: what says
// that a place is one has two cases (`Stands`), and a ghost field of that needs a law in specs/, where no laws stand.
#[derive(Clone, Copy)]
pub(crate) struct Book<'a> {
    pub(crate) image: &'a [u8],
    pub(crate) leaves: &'a [u8],
    ghost is_sound: { sound image.now ≡ true },
    ghost listed: { eqs leaves.now (leaf_pages image.now) ≡ true },
}

impl Book<'_> {
    // Before the first record of a leaf.
    fn on_leaf(&self, leaf: usize) -> Cursor
        requires { leaf < length (leaf_pages self.now.image.now) }
        ensures { Stands self.now.image.now result × (left_at self.now.image.now result ≡ records_on self.now.image.now (drop leaf (leaf_pages self.now.image.now))) }
    {
        let page = self.leaves[leaf] as usize;
        let p = pages::laid_page(self.image, page);
        let key = if p.count() == 0 {
            pages::KEYS_END
        } else {
            p.key_at(0)
        };
        Cursor {
            leaf,
            page,
            slot: 0,
            key,
        }
    }

    // Before the first record.
    fn begin(&self) -> Cursor
        ensures { Stands self.now.image.now result × (left_at self.now.image.now result ≡ table self.now.image.now) }
    {
        self.on_leaf(0)
    }

    // Past the record that comes next. No leaf after another is empty.
    fn advance(&self, at: Cursor) -> Cursor
        requires { Stands self.now.image.now at × (at.key < suc top_key) }
        ensures { Stands self.now.image.now result × (left_at self.now.image.now result ≡ drop 1 (left_at self.now.image.now at)) }
    {
        let p = pages::laid_page(self.image, at.page);
        let slot = at.slot + 1;
        if slot < p.count() {
            let key = p.key_at(slot);
            return Cursor { slot, key, ..at };
        }
        let leaf = at.leaf + 1;
        if leaf < self.leaves.len() {
            return self.on_leaf(leaf);
        }
        Cursor {
            slot,
            key: pages::KEYS_END,
            ..at
        }
    }

    // The size of the record that comes next.
    fn size_at(&self, at: Cursor) -> usize
        requires { Stands self.now.image.now at × (at.key < suc top_key) }
        ensures { result ≡ size (get_or (left_at self.now.image.now at) 0 (rec_of 0 [])) }
    {
        pages::laid_page(self.image, at.page).size_at(at.slot)
    }

    // Copies the record that comes next to a page that is being filled.
    fn append_at(&self, at: Cursor, page: &mut [u8], h: Header) -> Header
        requires { (length page.old ≡ page_size) × Stands self.now.image.now at × (at.key < suc top_key) × Room h (take 1 (left_at self.now.image.now at)) }
        ensures { Filled h page.old (take 1 (left_at self.now.image.now at)) result page.new }
    {
        let p = pages::laid_page(self.image, at.page);
        append_copy(page, h, p.bytes, p.slot_at(at.slot))
    }
}

// ---- both: of two different keys the smaller comes next; that of a book without a next record is past all others

#[derive(Clone, Copy)]
pub(crate) struct Books<'a> {
    pub(crate) first: Book<'a>,
    pub(crate) second: Book<'a>,
}

impl<'a> Books<'a> {
    // Before the first record of each.
    pub(crate) fn begin(&self) -> Cursors
        ensures { Ready self.now.first.image.now self.now.second.image.now result × (left_of self.now.first.image.now self.now.second.image.now result ≡ merged (table self.now.first.image.now) (table self.now.second.image.now)) × (apart_at self.now.first.image.now self.now.second.image.now result ≡ apart (table self.now.first.image.now) (table self.now.second.image.now)) }
    {
        Cursors {
            first: self.first.begin(),
            second: self.second.begin(),
        }
    }

    // The book that has the record that comes next, and the place in it.
    fn coming(&self, at: Cursors) -> (Book<'a>, Cursor)
        requires { Ready self.now.first.image.now self.now.second.image.now at × (at.first.key ≡ at.second.key → ⊥) }
        ensures { Comes self.now.first.image.now self.now.second.image.now at result.0.image.now result.1 }
    {
        if at.first.key < at.second.key {
            (self.first, at.first)
        } else {
            (self.second, at.second)
        }
    }

    // Past the record that comes next.
    pub(crate) fn step(&self, at: Cursors) -> Cursors
        requires { Ready self.now.first.image.now self.now.second.image.now at × (at.first.key ≡ at.second.key → ⊥) }
        ensures { Passed self.now.first.image.now self.now.second.image.now at result }
    {
        if at.first.key < at.second.key {
            let first = self.first.advance(at.first);
            return Cursors { first, ..at };
        }
        let second = self.second.advance(at.second);
        Cursors { second, ..at }
    }

    // The size of the record that comes next.
    pub(crate) fn next_size(&self, at: Cursors) -> usize
        requires { Ready self.now.first.image.now self.now.second.image.now at × (at.first.key ≡ at.second.key → ⊥) }
        ensures { result ≡ size (get_or (left_of self.now.first.image.now self.now.second.image.now at) 0 (rec_of 0 [])) }
    {
        let (book, place) = self.coming(at);
        book.size_at(place)
    }

    // Copies the record that comes next to a page that is being filled.
    pub(crate) fn append_next(&self, at: Cursors, page: &mut [u8], h: Header) -> Header
        requires ready { Ready self.now.first.image.now self.now.second.image.now at × (at.first.key ≡ at.second.key → ⊥) }
        requires page_len { (length page.old ≡ page_size) × Room h (take 1 (left_of self.now.first.image.now self.now.second.image.now at)) }
        ensures { Filled h page.old (take 1 (left_of self.now.first.image.now self.now.second.image.now at)) result page.new }
    {
        let (book, place) = self.coming(at);
        book.append_at(place, page, h)
    }

    // Whether a leaf with n records of s bytes takes the record that comes next, if one comes.
    pub(crate) fn takes_next(&self, at: Cursors, n: usize, s: usize) -> bool
        requires { Ready self.now.first.image.now self.now.second.image.now at × (apart_at self.now.first.image.now self.now.second.image.now at ≡ true) × (s < page_size) }
        ensures { result ≡ takes_next n s (left_of self.now.first.image.now self.now.second.image.now at) }
    {
        at.first.key != at.second.key && takes(n, s, self.next_size(at))
    }
}
