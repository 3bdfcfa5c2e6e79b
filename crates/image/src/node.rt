// A page by itself, within its range of keys: a leaf, and a page above the leaves with the pages that it names. All are put into their callers: as calls they
// cost check a seventh and a lookup a tenth.
ghost use Rattle.std.specs.Prelude.{◌≡◌, true, ◌+◌, ◌*◌, ◌≤◌, ◌<◌, length, drop, map, replicate};
ghost use Rattle.codec.specs.Lists.{All};
ghost use Rattle.device.specs.Calls.{is_image_size};
ghost use Rattle.page.specs.Layout.{page_size};
ghost use Rattle.page.specs.Page.{records};
ghost use Rattle.page.specs.PageFormat.{format1};
ghost use Rattle.page.specs.Operations.{page_of};
ghost use Rattle.image.specs.PageZero.{page_count, is_page};
ghost use Rattle.image.specs.Image.{Entries, child_of, height_of, bound_ok, leaf_ok, index_ok, first_key};
ghost use Rattle.image.specs.Descent.{root_read};
ghost use Rattle.image.specs.Marks.{claims, claimed, NodeBy, Marked};

use crate::{Place, pages};
use page::check::page_ok;
use page::laid::Page;

// Where the keys of the page in slot i end: at the next separator, or with the range of them all.
#[inline(always)]
pub fn sep_after(page: Page, i: usize, end: u64) -> u64
    requires { i < length (records page.bytes.now) }
    ensures { result ≡ first_key (drop (i + 1) (records page.entry.bytes.now)) end }
{
    if i + 1 < page.count() {
        return page.key_at(i + 1);
    }
    end
}

// Whether a page is sound by itself, as one of this kind, with its keys from lo on and below hi. Keys rise, so the first and the last one tell.
#[inline(always)]
pub fn bound_ok(image: &[u8], kind: u8, empty: bool, lo: u64, hi: u64, own: usize) -> bool
    requires { page_size * own + page_size ≤ length image.now }
    ensures { result ≡ bound_ok format1 kind empty lo hi own (page_of image.now own) }
{
    let bytes = pages::page_of(image, own);
    if !page_ok(bytes, kind, own) {
        return false;
    }
    let page = Page { bytes };
    let n = page.count();
    if n == 0 {
        return empty;
    }
    if page.key_at(0) < lo {
        return false;
    }
    page.key_at(n - 1) < hi
}

// Whether a leaf is sound by itself.
#[inline(always)]
pub fn leaf_ok(image: &[u8], only: bool, lo: u64, hi: u64, own: usize) -> bool
    requires { page_size * own + page_size ≤ length image.now }
    ensures { result ≡ leaf_ok only lo hi own (page_of image.now own) }
{
    bound_ok(image, pages::LEAF, only, lo, hi, own)
}

// Marks the pages that a page names, or says that one is no page of the n, or marked already.
#[inline(always)]
pub fn claim(page: Page, n: usize, marks: &mut [u8]) -> bool
    requires { Entries (records page.bytes.now) × (n ≤ length marks.now) }
    ensures value { result ≡ claims n marks.old (map child_of (records page.entry.bytes.now)) }
    ensures marks_after { result ≡ true → marks.new ≡ claimed marks.old (map child_of (records page.entry.bytes.now)) }
{
    for i in 0..page.count() {
        let child = pages::child_at(page, i);
        if n <= child {
            return false;
        }
        if marks[child] != 0 {
            return false;
        }
        marks[child] = 1;
    }
    true
}

// Judges the page at a place, of this height above the leaves, with the names that are marked, and marks those that it gives.
#[inline(always)]
pub fn node_ok(image: &[u8], height: usize, at: Place, marks: &mut [u8]) -> bool
    requires { (is_image_size (length image.now) ≡ true) × (is_page (page_count image.now) at.page ≡ true) × (1 ≤ height) × (height ≤ 2) × (length marks.now ≡ 64) }
    ensures { NodeBy image.now height at marks.old result marks.new }
{
    if !bound_ok(image, height as u8 + 1, false, at.from, at.below, at.page) {
        return false;
    }
    claim(
        pages::laid_page(image, at.page),
        image.len() / pages::PAGE_SIZE,
        marks,
    )
}

// The height of a root, which its kind tells.
#[inline(always)]
pub fn height_of(image: &[u8], root: usize) -> usize
    requires { page_size * root + page_size ≤ length image.now }
    ensures { result ≡ height_of image.now root }
{
    if pages::page_of(image, root)[4] == pages::TOP {
        return 2;
    }
    1
}

// Judges the root, and marks it, the pages that it names, and page 0, which none may name.
#[inline(always)]
pub fn index_ok(image: &[u8], root: usize, marks: &mut [u8]) -> bool
    requires { (is_image_size (length image.now) ≡ true) × (is_page (page_count image.now) root ≡ true) × (marks.now ≡ replicate 64 0) }
    ensures value { result ≡ index_ok image.now root }
    ensures marks_after { result ≡ true → Marked image.now root (root_read root) marks.new }
{
    marks[0] = 1;
    marks[root] = 2;
    let top = Place {
        page: root,
        from: 0,
        below: pages::KEYS_END,
    };
    node_ok(image, height_of(image, root), top, marks)
}
