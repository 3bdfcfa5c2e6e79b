// New pages, and the records of a page of the work image.
ghost use Rattle.std.specs.Prelude.{◌≡◌, true, false, [], ◌∷◌, suc, ◌+◌, ◌-◌, ◌*◌, ◌≤◌, ◌<◌, length, eqb};
ghost use Rattle.std.specs.Option.{MatchOption};
ghost use Rattle.codec.specs.Lists.{pick};
ghost use Rattle.codec.specs.Numbers.{bytes_of};
ghost use Rattle.page.specs.Layout.{page_size, top_key, size};
ghost use Rattle.page.specs.Page.{laid_out, records};
ghost use Rattle.page.specs.Operations.{fill, delete, in_place, between, page_of, put_page};
ghost use Rattle.page.specs.PageFormat.{format1};
ghost use Rattle.page_edit.specs.Filling.{CanFill};
ghost use Rattle.image.specs.Image.{index_rec};
ghost use Rattle.tree.specs.Edits.{is_full};
ghost use Rattle.tree_edit.specs.Steps.{unmarked, rec_by, made_by};
ghost use Rattle.tree_edit.specs.Asked.{CanPut};

use crate::Put;
use image::pages::page_of;
use page::header::Header;
use page::laid::Page;
use page_edit::{append_new, delete_record, fill_made, insert_record, update_record};

// The highest page below top that is not marked, if there is one: "the highest-numbered one neither reached before the transaction nor
// already taken in it".
pub(crate) fn free_below(before: &[u8; 64], top: usize) -> Option<usize>
    requires { top ≤ 64 }
    ensures { MatchOption result (unmarked before.now (top - 1) ≡ []) (λ p. (unmarked before.now (top - 1) ≡ p ∷ unmarked before.now (p - 1)) × (p ≤ top)) }
{
    for p in (1..top).rev() {
        if before[p] == 0 {
            return Some(p);
        }
    }
    None
}

// Whether a page has no room for a record of s bytes: "If s exceeds start minus 64, or an insert finds 28 records".
pub(crate) fn is_full(page: Page, ins: bool, s: usize) -> bool
    ensures { result ≡ is_full format1 tt ins s page.entry.bytes.now }
{
    codec::number_at(page.bytes, 2) - 64 < s || (ins && 28 <= page.count())
}

// How many records a page lists once the new one is put in.
pub(crate) fn made_count(page: Page, ins: bool) -> usize
    ensures { result ≡ pick ins (suc (length (records page.entry.bytes.now))) (length (records page.entry.bytes.now)) }
{
    page.count() + usize::from(ins)
}

// Puts a record into page p, which has room for it. Here and below the page is lent by its own range: a function that gives the part as a `&mut`
// gets no generated proof.
pub(crate) fn put_in_place(work: &mut [u8], p: usize, new: Put, value: &[u8])
    requires page_size_in_bounds { (page_size * p + page_size ≤ length work.old) × CanPut (page_of work.old p) new value.now }
    requires p_value { is_full format1 tt new.ins (size (rec_by new value.now)) (page_of work.old p) ≡ false }
    ensures { work.new ≡ put_page work.old p (in_place new.ins new.at (rec_by new value.now) (page_of work.old p)) }
{
    let a = 1024 * p;
    let e = a + 1024;
    if new.ins {
        insert_record(&mut work[a..e], new.at, new.key, value);
    } else {
        update_record(&mut work[a..e], new.at, new.key, value);
    }
}

// Drops the i-th record of page p.
pub(crate) fn delete_at(work: &mut [u8], p: usize, i: usize)
    requires { (page_size * p + page_size ≤ length work.old) × (laid_out (page_of work.old p) ≡ true) × (i < length (records (page_of work.old p))) }
    ensures { work.new ≡ put_page work.old p (delete (page_of work.old p) i) }
{
    let a = 1024 * p;
    let e = a + 1024;
    delete_record(&mut work[a..e], i);
}

// Fills page `to` with the records `first` to `last` of page `from` once the new one is put in. The old page is copied first, since two
// parts of work cannot be lent at a time.
pub(crate) fn copy_made(
    work: &mut [u8],
    from: usize,
    to: usize,
    kind: u8,
    new: Put,
    value: &[u8],
    first: usize,
    last: usize,
)
    requires page_size_in_bounds { (page_size * from + page_size ≤ length work.old) × (page_size * to + page_size ≤ length work.old) }
    requires can_fill { CanFill (page_of work.old from) new.ins new.at (rec_by new value.now) first last }
    ensures { work.new ≡ put_page work.old to (fill (page_of work.old to) kind to (between (made_by new value.now (page_of work.old from)) first last)) }
{
    let mut old = [0u8; 1024];
    old.copy_from_slice(page_of(work, from));
    let a = 1024 * to;
    let e = a + 1024;
    fill_made(
        &mut work[a..e],
        kind,
        to,
        &old,
        new.ins,
        new.at,
        new.key,
        value,
        first,
        last,
    );
}

// The value of an index record: "a 2-byte page number".
pub(crate) fn entry_value(named: usize) -> [u8; 2]
    ensures { result ≡ bytes_of 2 named }
{
    let mut value = [0u8; 2];
    codec::put_number(&mut value, 0, named);
    value
}

// Fills a new page, whatever it held, with the index records of two pages, the left one from 0 on.
pub(crate) fn fill_two(page: &mut [u8], kind: u8, own: usize, left: usize, sep: u64, right: usize)
    requires { (length page.old ≡ page_size) × (sep ≤ top_key) }
    ensures { page.new ≡ fill page.old kind own (index_rec 0 left ∷ index_rec sep right ∷ []) }
{
    let first = append_new(page, Header::unused(kind, own), 0, &entry_value(left));
    let both = append_new(page, first, sep, &entry_value(right));
    both.write(page);
}
