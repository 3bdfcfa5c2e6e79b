// The edits of a list, one by one.
ghost use Rattle.std.specs.Prelude.{◌≡◌, [], ◌≤◌, ◌<◌, length};
ghost use Rattle.page.specs.Layout.{leaf_kind};
ghost use Rattle.page.specs.Page.{records};
ghost use Rattle.page.specs.Operations.{page_of};
ghost use Rattle.page.specs.PageFormat.{format1};
ghost use Rattle.image.specs.PageZero.{page_count};
ghost use Rattle.edit.specs.EditList.{insert, update, delete, edit_of, listed, edits_of, edit_list};
ghost use Rattle.edit.specs.Reads.{Proper};
ghost use Rattle.tree.specs.Edits.{no_keep, put, dropped, edited};
ghost use Rattle.tree.specs.Whole.{edits_from};
ghost use Rattle.tree.specs.Good.{Good};
ghost use Rattle.tree_edit.specs.Steps.{state_of, outcome_of, Says, turn_of, child_for, way_of, filled_above, only_below, rec_by, upward};
ghost use Rattle.tree_edit.specs.Asked.{Names, OnWay, CanPut, CanRaise};

use crate::turns::{absorb, drop_record, put_record, root_step};
use crate::{Child, Put, Tree, Turned, Way};
use device::{Cause, Refusal};
use image::descent::route;
use image::node::height_of;
use image::pages::{child_at, laid_page};

// Of the pages that a page names, the one that a key belongs to: it "keeps its separator, or takes 0 if first", where the first page's range starts
// with that of the page above.
#[inline(always)]
pub(crate) fn child_of(work: &[u8], above: Child, key: u64) -> Child
    requires { Names work.now above.page }
    ensures { result ≡ child_for work.now above key }
{
    let page = laid_page(work, above.page);
    let slot = route(page, key);
    let named = child_at(page, slot);
    let low = if slot == 0 {
        above.low
    } else {
        page.key_at(slot)
    };
    Child {
        slot,
        low,
        page: named,
    }
}

// The way to the leaf that a key belongs to.
#[inline(always)]
pub(crate) fn way_to(work: &[u8], root: usize, key: u64) -> Way
    requires { Good (page_count work.now) (record { image = work.now; root = root; free = [] }) }
    ensures { result ≡ way_of work.now root key }
{
    let height = height_of(work, root);
    let top = Child {
        slot: 0,
        low: 0,
        page: root,
    };
    let index = if height == 1 {
        top
    } else {
        child_of(work, top, key)
    };
    let leaf = child_of(work, index, key);
    Way {
        height,
        index,
        leaf,
    }
}

// Whether no page above the leaf has room for one record more, where no page can be put above the root.
pub(crate) fn is_filled(work: &[u8], root: usize, way: Way) -> bool
    requires { OnWay (page_count work.now) (record { image = work.now; root = root; free = [] }) way }
    ensures { result ≡ filled_above work.now root way }
{
    way.height == 2
        && 28 <= laid_page(work, root).count()
        && 28 <= laid_page(work, way.index.page).count()
}

// Whether the leaf is "the only one": each page above it names one page.
pub(crate) fn is_only(work: &[u8], root: usize, way: Way) -> bool
    requires { OnWay (page_count work.now) (record { image = work.now; root = root; free = [] }) way }
    ensures { result ≡ only_below work.now root way }
{
    laid_page(work, root).count() == 1 && laid_page(work, way.index.page).count() == 1
}

// Gives the pages above a leaf what stands for it once an edit there is made: the tree is then what the root has become.
#[inline(always)]
fn raise(
    work: &mut [u8],
    before: &[u8; 64],
    root: usize,
    way: Way,
    below: Turned,
) -> Result<Tree, Cause>
    requires { CanRaise before.now work.old root way below }
    ensures { Says before.now work.new result (upward root way (turn_of before.now work.old root below)) }
{
    let above = absorb(work, before, root, 2, way.index.page, way.leaf, below)?;
    if way.height == 1 {
        return root_step(work, before, root, 2, above);
    }
    let top = absorb(work, before, root, 3, root, way.index, above)?;
    root_step(work, before, root, 3, top)
}

// Puts a record into a leaf, and gives the pages above what they take of it.
pub(crate) fn put_under(
    work: &mut [u8],
    before: &[u8; 64],
    t: Tree,
    way: Way,
    new: Put,
    value: &[u8],
) -> Result<Tree, Cause>
    requires { OnWay (page_count work.old) (state_of before.now work.old t) way × CanPut (page_of work.old way.leaf.page) new value.now × (t.top ≤ 64) }
    ensures { Says before.now work.new result (upward t.root way (put format1 no_keep leaf_kind (filled_above work.old t.root way) new.ins new.at (rec_by new value.now) way.leaf.page (state_of before.now work.old t))) }
{
    let full = is_filled(work, t.root, way);
    let below = put_record(work, before, t, 1, full, way.leaf.page, new, value)?;
    raise(work, before, t.root, way, below)
}

// Drops the j-th record of a leaf, and gives the pages above what they take of it.
pub(crate) fn drop_under(
    work: &mut [u8],
    before: &[u8; 64],
    t: Tree,
    way: Way,
    j: usize,
) -> Result<Tree, Cause>
    requires { OnWay (page_count work.old) (state_of before.now work.old t) way × (j < length (records (page_of work.old way.leaf.page))) × (t.top ≤ 64) }
    ensures { Says before.now work.new result (upward t.root way (dropped format1 (only_below work.old t.root way) j way.leaf.page (state_of before.now work.old t))) }
{
    let only = is_only(work, t.root, way);
    let below = drop_record(work, t, way.leaf.page, only, j);
    raise(work, before, t.root, way, below)
}

// Inserts a key that is missing.
pub(crate) fn insert_edit(
    work: &mut [u8],
    before: &[u8; 64],
    t: Tree,
    key: u64,
    value: &[u8],
) -> Result<Tree, Cause>
    requires { Good (page_count work.old) (state_of before.now work.old t) × (t.top ≤ 64) × Proper (insert key value.now) }
    ensures { Says before.now work.new result (edited (insert key value.now) (state_of before.now work.old t)) }
{
    let way = way_to(work, t.root, key);
    match laid_page(work, way.leaf.page).find(key) {
        Ok(_) => Err(Cause::KeyPresent),
        Err(at) => put_under(work, before, t, way, Put { ins: true, at, key }, value),
    }
}

// Gives a key that is there a new value: "an update's or delete's lookup that answers missing ends the edit there with 9".
pub(crate) fn update_edit(
    work: &mut [u8],
    before: &[u8; 64],
    t: Tree,
    key: u64,
    value: &[u8],
) -> Result<Tree, Cause>
    requires { Good (page_count work.old) (state_of before.now work.old t) × (t.top ≤ 64) × Proper (update key value.now) }
    ensures { Says before.now work.new result (edited (update key value.now) (state_of before.now work.old t)) }
{
    let way = way_to(work, t.root, key);
    let Ok(at) = laid_page(work, way.leaf.page).find(key) else {
        return Err(Cause::KeyMissing);
    };
    put_under(
        work,
        before,
        t,
        way,
        Put {
            ins: false,
            at,
            key,
        },
        value,
    )
}

// Drops a key that is there.
pub(crate) fn delete_edit(
    work: &mut [u8],
    before: &[u8; 64],
    t: Tree,
    key: u64,
) -> Result<Tree, Cause>
    requires { Good (page_count work.old) (state_of before.now work.old t) × (t.top ≤ 64) }
    ensures { Says before.now work.new result (edited (delete key) (state_of before.now work.old t)) }
{
    let way = way_to(work, t.root, key);
    let Ok(at) = laid_page(work, way.leaf.page).find(key) else {
        return Err(Cause::KeyMissing);
    };
    drop_under(work, before, t, way, at)
}

// Makes one edit: kind 1 inserts, 2 updates, 3 deletes. The kind is the list's byte and no enum: it is promised for every u8 (`edit_of`).
pub fn edit(
    work: &mut [u8],
    before: &[u8; 64],
    t: Tree,
    kind: u8,
    key: u64,
    value: &[u8],
) -> Result<Tree, Cause>
    requires { Good (page_count work.old) (state_of before.now work.old t) × (t.top ≤ 64) × Proper (edit_of kind key value.now) }
    ensures { Says before.now work.new result (edited (edit_of kind key value.now) (state_of before.now work.old t)) }
{
    match kind {
        1 => insert_edit(work, before, t, key, value),
        2 => update_edit(work, before, t, key, value),
        _ => delete_edit(work, before, t, key),
    }
}

// Makes the edits of a well-formed list: "Each edit sees those before it". A value is lent as a part of the list. The loop counts no index: each
// edit has a size of its own.
pub fn edit_list(work: &mut [u8], before: &[u8; 64], t: Tree, list: &[u8]) -> Result<Tree, Refusal>
    requires { Good (page_count work.old) (state_of before.now work.old t) × (t.top ≤ 64) × (edit_list list.now ≡ listed (edits_of (edit_list list.now))) }
    ensures { outcome_of before.now work.new result ≡ edits_from 0 (edits_of (edit_list list.now)) (state_of before.now work.old t) }
{
    let mut tree = t;
    let mut at = 0;
    let mut number = 0u8;
    while at < list.len() {
        let b = at + 10;
        let e = b + codec::wide(list[at + 1]);
        let key = codec::long_at(list, at + 2);
        match edit(work, before, tree, list[at], key, &list[b..e]) {
            Err(cause) => {
                return Err(Refusal {
                    cause,
                    edit: number,
                });
            }
            Ok(edited) => {
                tree = edited;
                at = e;
                number += 1;
            }
        }
    }
    Ok(tree)
}
