// Edits of a slotted page in place, and new pages filled from the records of another with an edit made.
#![tactic(auto)]

ghost use Rattle.std.specs.Prelude.{◌≡◌, true, [], ◌∷◌, ◌+◌, ◌-◌, ◌≤◌, ◌<◌, length, ltb};
ghost use Rattle.codec.specs.Lists.{splice, pick};
ghost use Rattle.page.specs.Layout.{page_size, value_most, rec_of, up8, size, record_bytes, record_at};
ghost use Rattle.page.specs.Page.{laid_out, records, RecOk};
ghost use Rattle.page.specs.Operations.{written, insert, update, delete, fill, made, between, CanInsert, CanUpdate};
ghost use Rattle.page_edit.specs.Filling.{Room, Stands, Filled, CanFill};

use page::header::Header;

// A length rounded up to a multiple of 8.
pub(crate) fn round_up(n: usize) -> usize
    requires { n ≤ 65536 }
    ensures { result ≡ up8 n }
{
    (n + 7) / 8 * 8
}

// Writes a record. Its length and the six zeros are one word.
pub(crate) fn put_record(page: &mut [u8], at: usize, key: u64, value: &[u8])
    requires { (length value.now ≤ value_most) × (at + size (rec_of key value.now) ≤ length page.old) }
    ensures { page.new ≡ splice page.old at (record_bytes (rec_of key value.now)) }
{
    let n = value.len();
    codec::put_long(page, at, key);
    codec::put_long(page, at + 8, n as u64);
    codec::copy(page, at + 16, value, 0, n);
    codec::fill(page, at + 16 + n, round_up(n) - n, 0);
}

// Writes a record just below start, and gives its size.
pub(crate) fn write_below(page: &mut [u8], start: usize, key: u64, value: &[u8]) -> usize
    requires { (length value.now ≤ value_most) × (size (rec_of key value.now) ≤ start) × (start ≤ length page.old) }
    ensures { (result ≡ size (rec_of key value.now)) × (page.new ≡ written start page.old (rec_of key value.now)) }
{
    let s = 16 + round_up(value.len());
    put_record(page, start - s, key, value);
    s
}

// ---- edits in place

// Inserts a record as the i-th.
pub fn insert_record(page: &mut [u8], i: usize, key: u64, value: &[u8])
    requires { CanInsert page.old i (rec_of key value.now) }
    ensures { page.new ≡ insert page.old i (rec_of key value.now) }
{
    let h = Header::read(page);
    let s = write_below(page, h.start, key, value);
    h.inserted(i, s).write(page);
}

// Puts a new record in place of the i-th.
pub fn update_record(page: &mut [u8], i: usize, key: u64, value: &[u8])
    requires { CanUpdate page.old i (rec_of key value.now) }
    ensures { page.new ≡ update page.old i (rec_of key value.now) }
{
    let h = Header::read(page);
    let s = write_below(page, h.start, key, value);
    h.swapped(i, s).write(page);
}

// Drops the i-th record.
pub fn delete_record(page: &mut [u8], i: usize)
    requires { (laid_out page.old ≡ true) × (i < length (records page.old)) }
    ensures { page.new ≡ delete page.old i }
{
    let h = Header::read(page);
    h.removed(i).write(page);
}

// ---- a new page

// Copies the record at `at` of another page to a page that is being filled.
pub fn append_copy(page: &mut [u8], h: Header, old: &[u8], at: usize) -> Header
    requires { (length page.old ≡ page_size) × (length old.now ≡ page_size) × Stands old.now at × Room h (record_at old.now at ∷ []) }
    ensures { Filled h page.old (record_at old.now at ∷ []) result page.new }
{
    let s = 16 + round_up(codec::number_at(old, at + 8));
    codec::copy(page, h.start - s, old, at, s);
    let count = h.count;
    h.inserted(count, s)
}

// Writes a new record to a page that is being filled.
pub fn append_new(page: &mut [u8], h: Header, key: u64, value: &[u8]) -> Header
    requires { (length page.old ≡ page_size) × RecOk (rec_of key value.now) × Room h (rec_of key value.now ∷ []) }
    ensures { Filled h page.old (rec_of key value.now ∷ []) result page.new }
{
    let s = write_below(page, h.start, key, value);
    let count = h.count;
    h.inserted(count, s)
}

// The old slot of the k-th record once the edit is made, where it is not the new one.
pub(crate) fn old_slot(ins: bool, i: usize, k: usize) -> usize
    requires { k ≡ i → ⊥ }
    ensures { result ≡ pick ins (pick (ltb k i) k (k - 1)) k }
{
    if ins {
        if k < i {
            return k;
        }
        return k - 1;
    }
    k
}

// Fills a new page, whatever it held, with the records `from` to `to` of another page as they are once the edit is made: a record put in
// as the i-th, or in place of it. The kind is a number, as `fill` has it.
pub fn fill_made(
    page: &mut [u8],
    kind: u8,
    own: usize,
    old: &[u8],
    ins: bool,
    i: usize,
    key: u64,
    value: &[u8],
    from: usize,
    to: usize,
)
    requires { (length page.old ≡ page_size) × CanFill old.now ins i (rec_of key value.now) from to }
    ensures { page.new ≡ fill page.old kind own (between (made ins i (rec_of key value.now) (records old.now)) from to) }
{
    let mut h = Header::unused(kind, own);
    for k in from..to {
        if k == i {
            h = append_new(page, h, key, value);
        } else {
            let at = codec::number_at(old, 8 + 2 * old_slot(ins, i, k));
            h = append_copy(page, h, old, at);
        }
    }
    h.write(page);
}
