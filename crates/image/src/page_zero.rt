// Page 0: what its first line says.
ghost use Rattle.std.specs.Prelude.{◌≡◌, true, ◌+◌, ◌*◌, ◌≤◌, length, replicate};
ghost use Rattle.codec.specs.Lists.{part, eqs};
ghost use Rattle.device.specs.Calls.{is_image_size};
ghost use Rattle.image.specs.PageZero.{is_page, page_zero};

use crate::PageZero;
use crate::pages::PAGE_SIZE;

// Whether p is a page of an image of n pages, other than page 0.
pub(crate) fn is_page(n: usize, p: usize) -> bool
    ensures { result ≡ is_page n p }
{
    if p < 1 {
        return false;
    }
    p < n
}

// Whether the n words from `at` on are zero.
pub(crate) fn zero_words(s: &[u8], at: usize, n: usize) -> bool
    requires { at + 8 * n ≤ length s.now }
    ensures { result ≡ eqs (part s.now at (8 * n)) (replicate (8 * n) 0) }
{
    (0..n).all(|i| codec::long_at(s, at + 8 * i) == 0)
}

// What page 0 says. Each word is read as one number: word 2 holds N and the format number 1, and a mark that waits is
// 1 + 256 k + 65,536 times its root.
pub fn page_zero(image: &[u8]) -> PageZero
    requires { is_image_size (length image.now) ≡ true }
    ensures { result ≡ page_zero image.now }
{
    let n = image.len() / PAGE_SIZE;
    let root = codec::long_at(image, 8) as usize;
    if !is_page(n, root) {
        return PageZero::Wrong;
    }
    if codec::long_at(image, 16) as usize != n + 65536 {
        return PageZero::Wrong;
    }
    if !zero_words(image, 24, 5) {
        return PageZero::Wrong;
    }
    let mark = codec::long_at(image, 0) as usize;
    if mark == 0 {
        return PageZero::Ready { root };
    }
    let headers = mark / 256 % 256;
    let new_root = mark / 65536;
    if mark % 256 != 1 {
        return PageZero::Wrong;
    }
    if headers < 1 {
        return PageZero::Wrong;
    }
    if 15 < headers {
        return PageZero::Wrong;
    }
    if !is_page(n, new_root) {
        return PageZero::Wrong;
    }
    PageZero::Waiting {
        headers,
        root: new_root,
    }
}
