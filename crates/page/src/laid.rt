// A page that is laid out, and what stands in its slots.
ghost use Rattle.std.specs.Prelude.{◌≡◌, true, [], ◌+◌, ◌≤◌, ◌<◌, length, get_or};
ghost use Rattle.page.specs.Layout.{value_most, up8, size, read_head, rec_of};
ghost use Rattle.page.specs.Page.{laid_out, records};
ghost use Rattle.page.specs.Search.{searched};

// The size of a record with a value of n bytes.
pub fn size_of(n: usize) -> usize
    requires { n ≤ value_most }
    ensures { result ≡ 16 + up8 n }
{
    16 + (n + 7) / 8 * 8
}

// A page whose records can be read: its header says where they lie.
#[derive(Clone, Copy)]
pub struct Page<'a> {
    pub bytes: &'a [u8],
    pub ghost laid: { laid_out bytes.now ≡ true },
}

impl Page<'_> {
    // How many records it lists.
    pub fn count(self) -> usize
        ensures { result ≡ length (records self.entry.bytes.now) }
    {
        codec::number_at(self.bytes, 0)
    }

    // The offset of the i-th record.
    pub fn slot_at(self, i: usize) -> usize
        requires { i < length (records self.bytes.now) }
        ensures { result ≡ get_or (read_head self.entry.bytes.now).slots i 0 }
    {
        codec::number_at(self.bytes, 8 + 2 * i)
    }

    // The key of the i-th record.
    pub fn key_at(self, i: usize) -> u64
        requires { i < length (records self.bytes.now) }
        ensures { result ≡ (get_or (records self.entry.bytes.now) i (rec_of 0 [])).key }
    {
        codec::long_at(self.bytes, self.slot_at(i))
    }

    // The size of the i-th record.
    pub fn size_at(self, i: usize) -> usize
        requires { i < length (records self.bytes.now) }
        ensures { result ≡ size (get_or (records self.entry.bytes.now) i (rec_of 0 [])) }
    {
        size_of(codec::number_at(self.bytes, self.slot_at(i) + 8))
    }

    // The slot of a key, else, as an error, the slot where it would stand. It looks from the first on: with at most 28 this was measured to be
    // quicker than halving.
    pub fn find(self, key: u64) -> Result<usize, usize>
        ensures { result ≡ searched key 0 (records self.entry.bytes.now) }
    {
        let count = self.count();
        for i in 0..count {
            let k = self.key_at(i);
            if key <= k {
                if k == key {
                    return Ok(i);
                }
                return Err(i);
            }
        }
        Err(count)
    }
}
