// A page of an image.
ghost use Rattle.std.specs.Prelude.{◌≡◌, true, [], ◌+◌, ◌*◌, ◌≤◌, ◌<◌, length, get_or};
ghost use Rattle.page.specs.Layout.{page_size, rec_of};
ghost use Rattle.page.specs.Page.{records, laid_out};
ghost use Rattle.page.specs.Operations.{page_of};
ghost use Rattle.image.specs.Image.{child_of};

use page::laid::Page;

pub const PAGE_SIZE: usize = 1024;

pub const LEAF: u8 = 1;

pub const INDEX: u8 = 2;

pub const TOP: u8 = 3;

// The largest key, and the largest separator.
pub const TOP_KEY: u64 = 999999999999;

// The end of the range of all keys.
pub const KEYS_END: u64 = 1000000000000;

// Page n of an image, as a part of it.
pub fn page_of(image: &[u8], n: usize) -> &[u8]
    requires { page_size * n + page_size ≤ length image.now }
    ensures { result.now ≡ page_of image.now n }
{
    let a = PAGE_SIZE * n;
    let e = a + PAGE_SIZE;
    &image[a..e]
}

// Page n of an image that is laid out.
pub fn laid_page(image: &[u8], n: usize) -> Page<'_>
    requires { (page_size * n + page_size ≤ length image.now) × (laid_out (page_of image.now n) ≡ true) }
    ensures { result.bytes.now ≡ page_of image.now n }
{
    Page {
        bytes: page_of(image, n),
    }
}

// The page that the i-th record of an index names.
pub fn child_at(page: Page, i: usize) -> usize
    requires { (i < length (records page.bytes.now)) × (length (get_or (records page.bytes.now) i (rec_of 0 [])).value ≡ 2) }
    ensures { result ≡ child_of (get_or (records page.entry.bytes.now) i (rec_of 0 [])) }
{
    codec::number_at(page.bytes, page.slot_at(i) + 16)
}
