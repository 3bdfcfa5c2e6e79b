// Leaves of the records of two books: how many there are, their pages, and the pages above them.
ghost use Rattle.std.specs.Prelude.{◌≡◌, true, Ok, Err, [], ◌∷◌, ◌+◌, ◌*◌, ◌≤◌, ◌<◌, length, take, map};
ghost use Rattle.codec.specs.Lists.{pick, All};
ghost use Rattle.device.specs.Calls.{refusal, key_in_both};
ghost use Rattle.page.specs.Layout.{page_size, leaf_kind, index_kind, top_key};
ghost use Rattle.page.specs.Operations.{fill};
ghost use Rattle.page_edit.specs.Filling.{Room, Filled};
ghost use Rattle.image.specs.Image.{index_rec, first_key, sound};
ghost use Rattle.image.specs.Table.{table};
ghost use Rattle.image.specs.Fresh.{separators, named, index_count, in_pages, put_filled};
ghost use Rattle.merge.specs.Tables.{merged, apart};
ghost use Rattle.merge.specs.Leaves.{leaves_of};
ghost use Rattle.merge.specs.Cursors.{takes, Ready, apart_at, LeafFilled};

use crate::Cursors;
use crate::books::Books;
use device::{Cause, Refusal};
use image::pages;
use page::header::Header;
use page_edit::append_new;

// Whether a leaf with n records of s bytes takes one of z bytes: "28 records and 960 bytes".
#[tactic(auto, unfolding(crate::specs::Cursors::takes))]
pub(crate) fn takes(n: usize, s: usize, z: usize) -> bool
    requires { (s < page_size) × (z < page_size) }
    ensures { result ≡ takes n s z }
{
    n < 28 && s + z <= 960
}

// How many leaves the records of both fill, unless a key is in both: the last has n records of s bytes so far. The loop counts no index: it goes from record to record
// of two books.
pub(crate) fn count_leaves(books: &Books<'_>) -> Result<usize, Refusal>
    ensures { result ≡ pick (apart (table books.now.first.image.now) (table books.now.second.image.now)) (Ok (length (leaves_of (merged (table books.now.first.image.now) (table books.now.second.image.now))))) (Err (refusal key_in_both)) }
{
    let mut at = books.begin();
    let mut leaves = 1;
    let mut n = 0;
    let mut s = 0;
    while at.first.key != at.second.key {
        let z = books.next_size(at);
        at = books.step(at);
        if takes(n, s, z) {
            n += 1;
            s += z;
        } else {
            leaves += 1;
            n = 1;
            s = z;
        }
    }
    if at.first.key < pages::KEYS_END {
        return Err(Refusal::of(Cause::KeyInBoth));
    }
    Ok(leaves)
}

// Fills a leaf with the records that come next, as many as it takes, and gives the place after them. The loop counts no index: it ends where a
// record does not fit.
pub(crate) fn fill_leaf(page: &mut [u8], own: usize, books: &Books<'_>, from: Cursors) -> Cursors
    requires { (length page.old ≡ page_size) × Ready books.now.first.image.now books.now.second.image.now from × (apart_at books.now.first.image.now books.now.second.image.now from ≡ true) }
    ensures { LeafFilled books.now.first.image.now books.now.second.image.now own from page.old result page.new }
{
    let mut h = Header::unused(pages::LEAF, own);
    let mut at = from;
    while books.takes_next(at, h.count, 1024 - h.start) {
        h = books.append_next(at, page, h);
        at = books.step(at);
    }
    h.write(page);
    at
}

// Fills the leaves into the pages from `first` on, one for each separator, and gives the separators: the first is 0, the others are smallest keys.
pub(crate) fn fill_leaves(out: &mut [u8], first: usize, seps: &mut [u64], books: &Books<'_>)
    requires first_value { page_size * (length seps.old + first) ≤ length out.old }
    requires second_value { (apart (table books.now.first.image.now) (table books.now.second.image.now) ≡ true) × (length seps.old ≡ length (leaves_of (merged (table books.now.first.image.now) (table books.now.second.image.now)))) }
    ensures out_after { out.new ≡ put_filled leaf_kind out.old first (leaves_of (merged (table books.now.first.image.now) (table books.now.second.image.now))) }
    ensures seps_after { seps.new ≡ separators (leaves_of (merged (table books.now.first.image.now) (table books.now.second.image.now))) }
{
    let mut at = books.begin();
    let mut next = 0;
    for (i, sep) in seps.iter_mut().enumerate() {
        *sep = next;
        let a = pages::PAGE_SIZE * (i + first);
        let e = a + pages::PAGE_SIZE;
        at = fill_leaf(&mut out[a..e], i + first, books, at);
        next = at.first.key.min(at.second.key);
    }
}

// Gives the page that is being filled the record of page k.
pub(crate) fn name_page(page: &mut [u8], h: Header, sep: u64, k: usize) -> Header
    requires { (length page.old ≡ page_size) × (sep ≤ top_key) × Room h (index_rec sep k ∷ []) }
    ensures { Filled h page.old (index_rec sep k ∷ []) result page.new }
{
    let mut value = [0u8; 2];
    codec::put_number(&mut value, 0, k);
    append_new(page, h, sep, &value)
}

// Fills a page above the leaves with the records of the pages from k on, by their separators.
pub(crate) fn fill_node(page: &mut [u8], kind: u8, own: usize, seps: &[u64], k: usize)
    requires { (length page.old ≡ page_size) × (length seps.now ≤ 28) × All (λ s. s ≤ top_key) seps.now × (k ≤ 65536) }
    ensures { page.new ≡ fill page.old kind own (named k seps.now) }
{
    let mut h = Header::unused(kind, own);
    for (i, sep) in seps.iter().enumerate() {
        h = name_page(page, h, *sep, i + k);
    }
    h.write(page);
}

// Fills the index pages over the leaves, from page 2 on, 28 records each, and gives the first separator of each.
pub(crate) fn fill_indexes(out: &mut [u8], tops: &mut [u64], seps: &[u64], first: usize)
    requires { (page_size * (length tops.old + 2) ≤ length out.old) × (length tops.old ≡ index_count (length seps.now)) × All (λ s. s ≤ top_key) seps.now × (first + length seps.now ≤ 65536) }
    ensures out_after { out.new ≡ put_filled index_kind out.old 2 (in_pages (length tops.old) (named first seps.now)) }
    ensures tops_after { tops.new ≡ map (λ cs. first_key cs 0) (in_pages (length tops.old) (named first seps.now)) }
{
    for (i, top) in tops.iter_mut().enumerate() {
        let at = 28 * i;
        let end = (at + 28).min(seps.len());
        *top = seps[at];
        let a = pages::PAGE_SIZE * (i + 2);
        let e = a + pages::PAGE_SIZE;
        fill_node(
            &mut out[a..e],
            pages::INDEX,
            i + 2,
            &seps[at..end],
            first + at,
        );
    }
}
