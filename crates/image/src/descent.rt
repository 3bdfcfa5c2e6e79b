// One descent from the root to a leaf, and what the leaf answers. The root is sound by itself; the other pages are judged as they are read. The steps are put into
// their callers, as the judging of a page is (`node`).
ghost use Rattle.std.specs.Prelude.{◌≡◌, true, Ok, ℕ, List, map, ◌+◌, ◌*◌, ◌≤◌, ◌<◌, length, get_or};
ghost use Rattle.device.specs.Calls.{is_image_size};
ghost use Rattle.page.specs.Layout.{leaf_kind, top_key};
ghost use Rattle.page.specs.Page.{records, entries, page_ok, keys_rise};
ghost use Rattle.page.specs.Operations.{page_of};
ghost use Rattle.image.specs.PageZero.{root_of, page_count, is_page};
ghost use Rattle.image.specs.Image.{places};
ghost use Rattle.image.specs.Table.{in_image, found_in, above};
ghost use Rattle.image.specs.Route.{route};
ghost use Rattle.image.specs.Descent.{root_read};
ghost use Rattle.image.specs.Calls.{index_call, leaf_lookup, next_from};
ghost use Rattle.image.specs.Marks.{NodePage, Marked, IsMarked, ReadBy, WayBy, LeafBy};

use crate::node::{height_of, leaf_ok, node_ok, sep_after};
use crate::{LeafPlace, Part, Place, pages};
use device::{Cause, Refusal};
use page::laid::Page;

// An image whose page 0 and root page were read and found sound, with the root's number.
#[derive(Clone, Copy)]
pub struct Indexed<'a> {
    pub image: &'a [u8],
    pub root: usize,
    pub ghost is_opened: { index_call image.now ≡ Ok root },
}

// The root page's number.
pub fn root_of(image: &[u8]) -> usize
    requires { 16 ≤ length image.now }
    ensures { result ≡ root_of image.now }
{
    codec::long_at(image, 8) as usize
}

// The slot of the index record that a key belongs to: of the last separator that is not above it, else of the first.
pub fn route(page: Page, key: u64) -> usize
    requires { keys_rise (records page.bytes.now) ≡ true }
    ensures { result ≡ route key (records page.entry.bytes.now) }
{
    match page.find(key) {
        Ok(i) => i,
        Err(i) => {
            if i == 0 {
                return 0;
            }
            i - 1
        }
    }
}

// One step down, from a page above the leaves with its range to the page that a key belongs to with its own: the first page in it takes the start of the
// range, the last its end.
#[inline(always)]
pub fn down(page: &[u8], at: Place, key: u64) -> Place
    requires { NodePage at.page page.now }
    ensures { result ≡ get_or (places at.from (records page.now) at.below) (route key (records page.now)) at }
{
    let page = Page { bytes: page };
    let i = route(page, key);
    let below = sep_after(page, i, at.below);
    let child = pages::child_at(page, i);
    if i == 0 {
        return Place {
            page: child,
            from: at.from,
            below,
        };
    }
    Place {
        page: child,
        from: page.key_at(i),
        below,
    }
}

// Looks a key up in a leaf.
pub fn find_in(page: &[u8], own: usize, key: u64) -> Option<Part>
    requires { page_ok leaf_kind own page.now ≡ true }
    ensures { Ok result ≡ found_in key (map (in_image own) (entries page.now)) }
{
    let laid = Page { bytes: page };
    match laid.find(key) {
        Ok(i) => {
            let at = laid.slot_at(i);
            Some(Part {
                offset: pages::PAGE_SIZE * own + at + 16,
                length: codec::number_at(page, at + 8),
            })
        }
        Err(_) => None,
    }
}

// The smallest key of a page above a key that is not the largest: the first that is not below the number after it.
pub fn next_in(page: Page, key: u64) -> Option<u64>
    requires { key < top_key }
    ensures { Ok result ≡ above key (records page.entry.bytes.now) }
{
    match page.find(key + 1) {
        Ok(i) => Some(page.key_at(i)),
        Err(i) => {
            if i < page.count() {
                return Some(page.key_at(i));
            }
            None
        }
    }
}

// Reads the page at a place, of this height above the leaves: it is judged unless it was read before.
#[inline(always)]
pub fn read_node(image: &[u8], height: usize, at: Place, marks: &mut [u8]) -> bool
    requires { (is_image_size (length image.now) ≡ true) × (is_page (page_count image.now) at.page ≡ true) × (1 ≤ height) × (height ≤ 2) × (length marks.now ≡ 64) × (get_or marks.now at.page 0 ≡ 0 → ⊥) }
    ensures { ReadBy image.now height at marks.old result marks.new }
{
    if marks[at.page] == 2 {
        return true;
    }
    if !node_ok(image, height, at, marks) {
        return false;
    }
    marks[at.page] = 2;
    true
}

impl Indexed<'_> {
    // The way of a key down to its leaf: each page above the leaves is judged as it is read, with what was read before.
    #[inline(always)]
    pub fn way_to(&self, marks: &mut [u8], key: u64) -> Option<LeafPlace>
        requires { IsMarked self.now.image.now self.now.root marks.now }
        ensures { WayBy self.now.image.now self.now.root key marks.old result marks.new }
    {
        let mut place = Place {
            page: self.root,
            from: 0,
            below: pages::KEYS_END,
        };
        let mut only = true;
        let mut height = height_of(self.image, self.root);
        while 0 < height {
            if !read_node(self.image, height, place, marks) {
                return None;
            }
            let page = pages::page_of(self.image, place.page);
            only = only && Page { bytes: page }.count() == 1;
            place = down(page, place, key);
            height -= 1;
        }
        Some(LeafPlace { only, place })
    }

    // The way of a key and its leaf, which is judged too.
    #[inline(always)]
    pub fn leaf_read(&self, marks: &mut [u8], key: u64) -> Result<LeafPlace, Refusal>
        requires { IsMarked self.now.image.now self.now.root marks.now }
        ensures { LeafBy self.now.image.now self.now.root key marks.old result marks.new }
    {
        match self.way_to(marks, key) {
            Some(leaf) => {
                let at = leaf.place;
                if !leaf_ok(self.image, leaf.only, at.from, at.below, at.page) {
                    return Err(Refusal::of(Cause::Unsound));
                }
                Ok(leaf)
            }
            None => Err(Refusal::of(Cause::Unsound)),
        }
    }

    // Looks a key up in the one leaf that it belongs to.
    #[inline(always)]
    pub fn find_key(&self, marks: &mut [u8], key: u64) -> Result<Option<Part>, Refusal>
        requires { IsMarked self.now.image.now self.now.root marks.now }
        ensures { (nodes : List ℕ) → Marked self.now.image.now self.now.root nodes marks.old → result ≡ leaf_lookup self.now.image.now self.now.root nodes key }
    {
        let own = self.leaf_read(marks, key)?.place.page;
        Ok(find_in(pages::page_of(self.image, own), own, key))
    }

    // The smallest key of a leaf above a number.
    #[inline(always)]
    fn next_at(&self, own: usize, key: u64) -> Option<u64>
        requires { (is_page (page_count self.now.image.now) own ≡ true) × (page_ok leaf_kind own (page_of self.now.image.now own) ≡ true) }
        ensures { Ok result ≡ above key (records (page_of self.now.image.now own)) }
    {
        if pages::TOP_KEY <= key {
            return None;
        }
        next_in(pages::laid_page(self.image, own), key)
    }

    // The smallest key above a number: in the leaf that it belongs to, and only if that has none, in the leaf after it.
    pub fn next_above(&self, marks: &mut [u8], key: u64) -> Result<Option<u64>, Refusal>
        requires { Marked self.now.image.now self.now.root (root_read self.now.root) marks.now }
        ensures { result ≡ next_from self.now.image.now key (Ok self.now.root) }
    {
        let leaf = self.leaf_read(marks, key)?.place;
        match self.next_at(leaf.page, key) {
            Some(next) => Ok(Some(next)),
            None if pages::TOP_KEY < leaf.below => Ok(None),
            None => {
                let after = self.leaf_read(marks, leaf.below)?.place;
                Ok(self.next_at(after.page, key))
            }
        }
    }
}
