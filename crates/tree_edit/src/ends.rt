// Before the first edit and after the last: marks of the reached pages, and the pages that are put back.
ghost use Rattle.std.specs.Prelude.{◌≡◌, ◌||◌, [], ℕ, ◌*◌, ◌≤◌, ◌<◌, length, get_or, eqb};
ghost use Rattle.codec.specs.Lists.{All};
ghost use Rattle.page.specs.PageFormat.{format1};
ghost use Rattle.image.specs.PageZero.{page_count};
ghost use Rattle.image.specs.Image.{pages_in, reached};
ghost use Rattle.tree.specs.Whole.{pages_from, edited_image};
ghost use Rattle.tree.specs.Good.{Good};
ghost use Rattle.tree_edit.specs.Steps.{is_marked, Marks, marked, state_of};
ghost use Rattle.tree_edit.specs.Asked.{Names, CanMark, CanPutBack, Spared};

use crate::Tree;
use image::node::height_of;
use image::pages::{child_at, laid_page, page_of};

// Marks a page above the leaves and the pages that it names.
pub(crate) fn mark_page(image: &[u8], q: usize, marks: &mut [u8; 64])
    requires { Names image.now q × All (λ (p : ℕ). p < 64) (pages_in format1 image.now 1 q) }
    ensures { marks.new ≡ marked (pages_in format1 image.now 1 q) marks.old }
{
    let page = laid_page(image, q);
    marks[q] = 1;
    for i in 0..page.count() {
        let named = child_at(page, i);
        marks[named] = 1;
    }
}

// Marks all pages under a root: itself and those that it names, and under a top page what those name.
pub fn marks_of(image: &[u8], root: usize) -> [u8; 64]
    requires { CanMark image.now root }
    ensures marks { Marks result (reached image.now root) }
    ensures by_index { ((p : ℕ) → get_or result p 0 ≤ 1) × (length result ≡ 64) }
{
    let mut marks = [0u8; 64];
    if height_of(image, root) == 1 {
        mark_page(image, root, &mut marks);
        return marks;
    }
    let page = laid_page(image, root);
    marks[root] = 1;
    for i in 0..page.count() {
        mark_page(image, child_at(page, i), &mut marks);
    }
    marks
}

// Puts the pages that are not marked back to what they were: "Pages not reached at the end hold the bytes they held before." A page below
// `top` that was not reached before was never taken, and so it still holds them.
pub(crate) fn put_back(
    work: &mut [u8],
    image: &[u8],
    marks: &[u8; 64],
    before: &[u8; 64],
    top: usize,
)
    requires { CanPutBack image.now work.old × Spared before.now image.now work.old top }
    ensures { work.new ≡ pages_from (λ (p : ℕ). eqb p 0 || is_marked marks.now p) image.now work.old (page_count image.now) 0 }
{
    for p in 1..image.len() / 1024 {
        if marks[p] == 0 && (before[p] != 0 || top <= p) {
            let a = 1024 * p;
            let e = a + 1024;
            work[a..e].copy_from_slice(page_of(image, p));
        }
    }
}

// Makes the edited image of work: pages that are not reached put back, and the root number in word 1.
pub fn finish(work: &mut [u8], image: &[u8], before: &[u8; 64], t: Tree)
    requires { Good (page_count work.old) (record { image = work.old; root = t.root; free = [] }) × (length image.now ≡ length work.old) × Spared before.now image.now work.old t.top }
    ensures { work.new ≡ edited_image image.now (state_of before.now work.old t) }
{
    let marks = marks_of(work, t.root);
    put_back(work, image, &marks, before, t.top);
    codec::put_long(work, 8, t.root as u64);
}
