// The tree: whether all pages under a root are sound, and which of them are its leaves.
ghost use Rattle.std.specs.Prelude.{◌≡◌, true, ◌&&◌, ◌++◌, ◌+◌, ◌≤◌, ◌<◌, length, take, eqb};
ghost use Rattle.codec.specs.Lists.{all_b};
ghost use Rattle.device.specs.Calls.{is_image_size};
ghost use Rattle.page.specs.PageFormat.{format1};
ghost use Rattle.image.specs.PageZero.{page_count, is_page};
ghost use Rattle.image.specs.Image.{children, names_of, places, top_place, leaves_in, height_of, leaf_at, index_ok, tree_ok};
ghost use Rattle.image.specs.Descent.{root_read};
ghost use Rattle.image.specs.Marks.{Judged, Marked};

use crate::node::{height_of, index_ok, leaf_ok, node_ok, sep_after};
use crate::{Leaves, Place, pages};

// Whether each leaf that a page names is sound within its range. `alone` says that no page is beside this one.
#[inline(always)]
fn leaves_ok(image: &[u8], alone: bool, at: Place) -> bool
    requires { (is_image_size (length image.now) ≡ true) × (is_page (page_count image.now) at.page ≡ true) × Judged image.now at.page }
    ensures { result ≡ all_b (leaf_at image.now (alone && eqb (length (children image.now at.page)) 1)) (places at.from (children image.now at.page) at.below) }
{
    let page = pages::laid_page(image, at.page);
    let leaves = page.count();
    let only = alone && leaves == 1;
    let mut lo = at.from;
    for i in 0..leaves {
        let hi = sep_after(page, i, at.below);
        if !leaf_ok(image, only, lo, hi, pages::child_at(page, i)) {
            return false;
        }
        lo = hi;
    }
    true
}

// Whether the index pages that a top page names, which is sound by itself, are sound with their leaves.
fn indexes_ok(image: &[u8], root: usize, marks: &mut [u8]) -> bool
    requires { (is_image_size (length image.now) ≡ true) × (is_page (page_count image.now) root ≡ true) × (height_of image.now root ≡ 2) × (index_ok image.now root ≡ true) × Marked image.now root (root_read root) marks.now }
    ensures { result ≡ tree_ok image.now root }
{
    let page = pages::laid_page(image, root);
    let indexes = page.count();
    let mut from = 0;
    for i in 0..indexes {
        let below = sep_after(page, i, pages::KEYS_END);
        let index = Place {
            page: pages::child_at(page, i),
            from,
            below,
        };
        if !node_ok(image, 1, index, marks) {
            return false;
        }
        if !leaves_ok(image, indexes == 1, index) {
            return false;
        }
        from = below;
    }
    true
}

// Whether the pages under a root are sound. Pages are marked as they are named: no two names are the same.
pub fn tree_ok(image: &[u8], root: usize) -> bool
    requires { (is_image_size (length image.now) ≡ true) × (is_page (page_count image.now) root ≡ true) }
    ensures { result ≡ tree_ok image.now root }
{
    let mut marks = [0u8; 64];
    if !index_ok(image, root, &mut marks) {
        return false;
    }
    if height_of(image, root) == 2 {
        return indexes_ok(image, root, &mut marks);
    }
    let top = Place {
        page: root,
        from: 0,
        below: pages::KEYS_END,
    };
    leaves_ok(image, true, top)
}

// The pages that a page names, put behind some leaves.
fn with_named(image: &[u8], q: usize, before: Leaves) -> Leaves
    requires { (is_image_size (length image.now) ≡ true) × (is_page (page_count image.now) q ≡ true) × Judged image.now q × (before.count + length (children image.now q) ≤ 64) × (length before.pages ≡ 64) }
    ensures count { result.count ≡ before.count + length (children image.now q) }
    ensures pages { take result.count result.pages ≡ take before.count before.pages ++ names_of image.now q }
    ensures size { length result.pages ≡ 64 }
{
    let page = pages::laid_page(image, q);
    let mut leaves = before;
    for i in 0..page.count() {
        leaves.pages[leaves.count] = pages::child_at(page, i) as u8;
        leaves.count += 1;
    }
    leaves
}

// The leaves of a sound tree, in order.
pub fn leaves_of(image: &[u8], root: usize) -> Leaves
    requires { (is_image_size (length image.now) ≡ true) × (tree_ok image.now root ≡ true) }
    ensures count { result.count ≡ length (leaves_in format1 image.now (height_of image.now root) root) }
    ensures pages { take result.count result.pages ≡ leaves_in format1 image.now (height_of image.now root) root }
    ensures size { length result.pages ≡ 64 }
{
    let mut leaves = Leaves {
        pages: [0; 64],
        count: 0,
    };
    if height_of(image, root) == 1 {
        return with_named(image, root, leaves);
    }
    let page = pages::laid_page(image, root);
    for i in 0..page.count() {
        leaves = with_named(image, pages::child_at(page, i), leaves);
    }
    leaves
}
