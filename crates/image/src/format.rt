// A fresh store, page by page.
ghost use Rattle.std.specs.Prelude.{◌≡◌, true, [], ◌∷◌, length};
ghost use Rattle.codec.specs.Numbers.{bytes_of};
ghost use Rattle.device.specs.Calls.{is_image_size};
ghost use Rattle.page.specs.Layout.{page_size, leaf_kind, index_kind, rec_of};
ghost use Rattle.page.specs.Operations.{fill};
ghost use Rattle.image.specs.PageZero.{page_count};
ghost use Rattle.image.specs.Fresh.{blank, fresh};

use crate::pages;
use page::header::Header;

// Fills page 1: the index with one record, separator 0 and page 2, at offset 1,000. Its key, its length and its value are a word each.
pub fn put_index(page: &mut [u8])
    requires { length page.old ≡ page_size }
    ensures { page.new ≡ fill page.old index_kind 1 (rec_of 0 (bytes_of 2 2) ∷ []) }
{
    codec::put_long(page, 1000, 0);
    codec::put_long(page, 1008, 2);
    codec::put_long(page, 1016, 2);
    Header::unused(pages::INDEX, 1).inserted(0, 24).write(page);
}

// Fills page 2: an empty leaf.
pub fn put_leaf(page: &mut [u8])
    requires { length page.old ≡ page_size }
    ensures { page.new ≡ fill page.old leaf_kind 2 [] }
{
    Header::unused(pages::LEAF, 2).write(page);
}

// Writes page 0 of a fresh store, and zeros elsewhere.
pub fn put_blank(image: &mut [u8])
    requires { is_image_size (length image.old) ≡ true }
    ensures { image.new ≡ blank (page_count image.old) }
{
    let n = image.len();
    codec::fill(image, 0, n, 0);
    codec::put_long(image, 8, 1);
    codec::put_long(image, 16, (n / pages::PAGE_SIZE + 65536) as u64);
}

// Writes a fresh store: page 0 and zeros, then the leaf and the index.
pub fn put_fresh(image: &mut [u8])
    requires { is_image_size (length image.old) ≡ true }
    ensures { image.new ≡ fresh (page_count image.old) }
{
    put_blank(image);
    put_leaf(&mut image[2048..3072]);
    put_index(&mut image[1024..2048]);
}
