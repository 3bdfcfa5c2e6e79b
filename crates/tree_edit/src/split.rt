// Where the records of a full page are split.
ghost use Rattle.std.specs.Prelude.{◌≡◌, [], ◌-◌, ◌<◌, length, get_or};
ghost use Rattle.page.specs.Layout.{rec_of, size};
ghost use Rattle.page.specs.Operations.{sizes, fits_page};
ghost use Rattle.tree.specs.Edits.{split_point};
ghost use Rattle.tree_edit.specs.Steps.{made_by};
ghost use Rattle.tree_edit.specs.Asked.{CanPut};

use crate::Put;
use crate::pages::made_count;
use page::laid::{Page, size_of};

// The size of the k-th record once the new one is put in.
pub(crate) fn size_made(page: Page, new: Put, value: &[u8], k: usize) -> usize
    requires { CanPut page.bytes.now new value.now × (k < length (made_by new value.now page.bytes.now)) }
    ensures { result ≡ size (get_or (made_by new value.now page.entry.bytes.now) k (rec_of 0 [])) }
{
    if k == new.at {
        return size_of(value.len());
    }
    let old = if new.ins && new.at < k { k - 1 } else { k };
    page.size_at(old)
}

// The sum of the records' sizes once the new one is put in.
pub(crate) fn total_made(page: Page, new: Put, value: &[u8]) -> usize
    requires { CanPut page.bytes.now new value.now }
    ensures { result ≡ sizes (made_by new value.now page.entry.bytes.now) }
{
    let mut sum = 0;
    for k in 0..made_count(page, new.ins) {
        sum += size_made(page, new, value, k);
    }
    sum
}

// Whether the records fit one page once the new one is put in: "If they are at most 28 and at most 960 bytes".
pub(crate) fn fits_one(page: Page, new: Put, value: &[u8]) -> bool
    requires { CanPut page.bytes.now new value.now }
    ensures { result ≡ fits_page (made_by new value.now page.entry.bytes.now) }
{
    made_count(page, new.ins) <= 28 && total_made(page, new, value) <= 960
}

// How many records the left page takes: "m smallest with twice their bytes at least the total". The loop has no last index: it ends where half of
// the bytes is reached, so a range would be no plainer.
pub(crate) fn split_point(page: Page, new: Put, value: &[u8]) -> usize
    requires { CanPut page.bytes.now new value.now }
    ensures { result ≡ split_point (made_by new value.now page.entry.bytes.now) }
{
    let total = total_made(page, new, value);
    let mut seen = 0;
    let mut m = 0;
    while 2 * seen < total {
        seen += size_made(page, new, value, m);
        m += 1;
    }
    m
}
