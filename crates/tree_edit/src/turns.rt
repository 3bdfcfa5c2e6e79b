// A record put into a page of any kind: in place, by a copy or by a split; what the page above takes of it; and what the root does. A kind is the
// number that the header stores, one more than the page's height.
ghost use Rattle.std.specs.Prelude.{◌≡◌, true, false, Ok, List, ℕ, ◌+◌, ◌-◌, ◌*◌, ◌≤◌, ◌<◌, length};
ghost use Rattle.codec.specs.Numbers.{bytes_of};
ghost use Rattle.page.specs.Layout.{page_size};
ghost use Rattle.page.specs.Page.{records, laid_out};
ghost use Rattle.page.specs.Operations.{page_of};
ghost use Rattle.page.specs.PageFormat.{format1};
ghost use Rattle.image.specs.PageZero.{page_count};
ghost use Rattle.image.specs.Image.{index_rec};
ghost use Rattle.tree.specs.Edits.{no_keep, copied, split, moved, put, dropped, then_into, absorbed, onto, rooted};
ghost use Rattle.tree.specs.Good.{Fits};
ghost use Rattle.tree_edit.specs.Steps.{state_of, turn_of, top_after, Says, Turns, rec_by, made_by};
ghost use Rattle.tree_edit.specs.Asked.{CanTake, CanSplit, CanThen, CanAbsorb, CanRoot};

use crate::pages::{
    copy_made, delete_at, entry_value, fill_two, free_below, is_full, made_count, put_in_place,
};
use crate::split::{fits_one, split_point};
use crate::{Child, Put, Tree, Turned};
use device::Cause;
use image::pages::laid_page;
use page::laid::size_of;

// Copies a page's records, with the new one put in, to one new page.
pub(crate) fn copy_page(
    work: &mut [u8],
    before: &[u8; 64],
    t: Tree,
    kind: u8,
    page: usize,
    new: Put,
    value: &[u8],
) -> Result<Turned, Cause>
    requires can_take { CanTake (page_count work.old) (state_of before.now work.old t) page new value.now × (t.top ≤ 64) }
    requires fits { Fits (made_by new value.now (page_of work.old page)) }
    ensures { Turns before.now work.new t.root result (copied format1 kind (made_by new value.now (page_of work.old page)) (state_of before.now work.old t)) }
{
    let Some(p) = free_below(before, t.top) else {
        return Err(Cause::PagesOut);
    };
    let n = made_count(laid_page(work, page), new.ins);
    copy_made(work, page, p, kind, new, value, 0, n);
    Ok(Turned::One { page: p, top: p })
}

// Splits a full page's records, with the new one put in, over two new pages, the left one taken first.
pub(crate) fn split_page(
    work: &mut [u8],
    before: &[u8; 64],
    t: Tree,
    kind: u8,
    page: usize,
    new: Put,
    value: &[u8],
) -> Result<Turned, Cause>
    requires can_take { CanTake (page_count work.old) (state_of before.now work.old t) page new value.now × (t.top ≤ 64) }
    requires can_split { CanSplit (made_by new value.now (page_of work.old page)) }
    ensures { Turns before.now work.new t.root result (split format1 kind (made_by new value.now (page_of work.old page)) (state_of before.now work.old t)) }
{
    let Some(p) = free_below(before, t.top) else {
        return Err(Cause::PagesOut);
    };
    let Some(q) = free_below(before, p) else {
        return Err(Cause::PagesOut);
    };
    let old = laid_page(work, page);
    let m = split_point(old, new, value);
    let n = made_count(old, new.ins);
    copy_made(work, page, p, kind, new, value, 0, m);
    copy_made(work, page, q, kind, new, value, m, n);
    let sep = laid_page(work, q).key_at(0);
    Ok(Turned::Two {
        left: p,
        sep,
        right: q,
        top: q,
    })
}

// Moves a full page's records, with the new one put in: "If they are at most 28 and at most 960 bytes, they are copied to one new page; else
// split over two", unless no page above has room for one record more.
pub(crate) fn move_records(
    work: &mut [u8],
    before: &[u8; 64],
    t: Tree,
    kind: u8,
    full: bool,
    page: usize,
    new: Put,
    value: &[u8],
) -> Result<Turned, Cause>
    requires { CanTake (page_count work.old) (state_of before.now work.old t) page new value.now × (t.top ≤ 64) }
    ensures { Turns before.now work.new t.root result (moved format1 kind full (made_by new value.now (page_of work.old page)) (state_of before.now work.old t)) }
{
    if fits_one(laid_page(work, page), new, value) {
        return copy_page(work, before, t, kind, page, new, value);
    }
    if full {
        return Err(Cause::IndexFull);
    }
    split_page(work, before, t, kind, page, new, value)
}

// Puts a record into a page, in place where there is room.
pub(crate) fn put_record(
    work: &mut [u8],
    before: &[u8; 64],
    t: Tree,
    kind: u8,
    full: bool,
    page: usize,
    new: Put,
    value: &[u8],
) -> Result<Turned, Cause>
    requires { CanTake (page_count work.old) (state_of before.now work.old t) page new value.now × (t.top ≤ 64) }
    ensures { Turns before.now work.new t.root result (put format1 no_keep kind full new.ins new.at (rec_by new value.now) page (state_of before.now work.old t)) }
{
    if is_full(laid_page(work, page), new.ins, size_of(value.len())) {
        return move_records(work, before, t, kind, full, page, new, value);
    }
    put_in_place(work, page, new, value);
    Ok(Turned::Kept { top: t.top })
}

// Puts the index record of the page `named` into an index page.
pub(crate) fn put_entry(
    work: &mut [u8],
    before: &[u8; 64],
    t: Tree,
    kind: u8,
    page: usize,
    new: Put,
    named: usize,
) -> Result<Turned, Cause>
    requires { CanTake (page_count work.old) (state_of before.now work.old t) page new (bytes_of 2 named) × (t.top ≤ 64) }
    ensures { Turns before.now work.new t.root result (put format1 no_keep kind false new.ins new.at (index_rec new.key named) page (state_of before.now work.old t)) }
{
    let value = entry_value(named);
    put_record(work, before, t, kind, false, page, new, &value)
}

// Puts a second index record into what stands for a page after the first.
pub(crate) fn then_entry(
    work: &mut [u8],
    before: &[u8; 64],
    root: usize,
    kind: u8,
    page: usize,
    first: Turned,
    new: Put,
    named: usize,
) -> Result<Turned, Cause>
    requires { CanThen (page_count work.old) before.now work.old root page new named first × (top_after first ≤ 64) }
    ensures { Turns before.now work.new root result (then_into (turn_of before.now work.old root first) page (λ x s. put format1 no_keep kind false new.ins new.at (index_rec new.key named) x s)) }
{
    match first {
        Turned::Kept { top } => {
            put_entry(work, before, Tree { root, top }, kind, page, new, named)
        }
        Turned::One { page: x, top } => {
            match put_entry(work, before, Tree { root, top }, kind, x, new, named)? {
                Turned::Kept { top: u } => Ok(Turned::One { page: x, top: u }),
                second => Ok(second),
            }
        }
        _ => Ok(first),
    }
}

// Drops the j-th record of a page: "A leaf left empty, unless it is the only one, loses its index record."
pub(crate) fn drop_record(work: &mut [u8], t: Tree, page: usize, only: bool, j: usize) -> Turned
    requires { (page_size * page + page_size ≤ length work.old) × (laid_out (page_of work.old page) ≡ true) × (j < length (records (page_of work.old page))) × (t.top ≤ 64) }
    ensures { (before : List ℕ) → Turns before work.new t.root (Ok result) (dropped format1 only j page (state_of before work.old t)) }
{
    delete_at(work, page, j);
    if only {
        return Turned::Kept { top: t.top };
    }
    if laid_page(work, page).count() == 0 {
        return Turned::Gone { top: t.top };
    }
    Turned::Kept { top: t.top }
}

// What a page takes from the page under it, once an edit there is made: "The left or only record takes the old leaf's slot, as in an update";
// "the right one is an insert".
#[inline(always)]
pub(crate) fn absorb(
    work: &mut [u8],
    before: &[u8; 64],
    root: usize,
    kind: u8,
    page: usize,
    under: Child,
    below: Turned,
) -> Result<Turned, Cause>
    requires { CanAbsorb (page_count work.old) before.now work.old root kind page under below × (top_after below ≤ 64) }
    ensures { Turns before.now work.new root result (onto (turn_of before.now work.old root below) (λ x s. absorbed format1 no_keep kind under.slot under.low page x s)) }
{
    let new = Put {
        ins: false,
        at: under.slot,
        key: under.low,
    };
    match below {
        Turned::Gone { top } => {
            Ok(drop_record(work, Tree { root, top }, page, false, under.slot))
        }
        Turned::One { page: p, top } => {
            put_entry(work, before, Tree { root, top }, kind, page, new, p)
        }
        Turned::Two {
            left,
            sep: key,
            right,
            top,
        } => {
            let first = put_entry(work, before, Tree { root, top }, kind, page, new, left)?;
            let at = under.slot + 1;
            let next = Put { ins: true, at, key };
            then_entry(work, before, root, kind, page, first, next, right)
        }
        _ => Ok(below),
    }
}

// The tree after what a root of this kind has become: "which changes the root number". Two pages get a new root above them, of the next kind. A root
// of the greatest height is never split.
#[inline(always)]
pub(crate) fn root_step(
    work: &mut [u8],
    before: &[u8; 64],
    root: usize,
    kind: u8,
    above: Turned,
) -> Result<Tree, Cause>
    requires { CanRoot (page_count work.old) before.now work.old above × (1 ≤ kind) × (kind ≤ 3) × (top_after above ≤ 64) }
    ensures { Says before.now work.new result (rooted format1 (kind - 1) (turn_of before.now work.old root above)) }
{
    match above {
        Turned::Kept { top } => Ok(Tree { root, top }),
        Turned::Gone { top } => Ok(Tree { root, top }),
        Turned::One { page, top } => Ok(Tree { root: page, top }),
        Turned::Two {
            left,
            sep,
            right,
            top,
        } => {
            let Some(p) = free_below(before, top) else {
                return Err(Cause::PagesOut);
            };
            let a = 1024 * p;
            let e = a + 1024;
            fill_two(&mut work[a..e], kind + 1, p, left, sep, right);
            Ok(Tree { root: p, top: p })
        }
    }
}
