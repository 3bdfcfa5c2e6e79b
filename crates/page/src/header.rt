// The header line of a page.
ghost use Rattle.std.specs.Prelude.{◌≡◌, ◌<◌, ◌≤◌, ◌++◌, length, drop};
ghost use Rattle.codec.specs.Lists.{splice};
ghost use Rattle.page.specs.Layout.{page_size, line_size, slot_count, slots_in, slot_bytes, raw_header, raw_bytes, head_of, header_of, unused_head};
ghost use Rattle.page.specs.Operations.{insert_head, update_head, delete_head};

// The header: how many records, the content start, the kind and the page's own number, with the offsets of its records.
// "the rest of the line is 28 slots of two bytes". The kind is the byte that stands there: `read` takes a header line of any bytes.
#[derive(Clone, Copy)]
pub struct Header {
    pub count: usize,
    pub start: usize,
    pub kind: u8,
    pub own: usize,
    pub slots: [u16; 28],
}

// The 28 slots of a header line.
fn slots_at(page: &[u8]) -> [u16; 28]
    requires { line_size ≤ length page.now }
    ensures { result ≡ slots_in slot_count (drop 8 page.now) }
{
    std::array::from_fn(|i| codec::number_at(page, 8 + 2 * i) as u16)
}

// Writes the 28 slots of a header line.
fn put_slots(page: &mut [u8], slots: [u16; 28])
    requires { line_size ≤ length page.old }
    ensures { (page.new ≡ splice page.old 8 (slot_bytes slots)) × (length slots ≡ slot_count) }
{
    for (i, slot) in slots.iter().enumerate() {
        codec::put_number(page, 8 + 2 * i, usize::from(*slot));
    }
}

impl Header {
    // "an unused header, the same everywhere: no records, content start 1,024"
    pub const UNUSED: Header = Header {
        count: 0,
        start: 1024,
        kind: 0,
        own: 0,
        slots: [0; 28],
    };

    // The unused header of a page of this kind and number.
    pub fn unused(kind: u8, own: usize) -> Header
        ensures { result ≡ header_of (unused_head kind own) }
    {
        Header {
            kind,
            own,
            ..Header::UNUSED
        }
    }

    // The header line of a page, whatever it holds.
    pub fn read(page: &[u8]) -> Header
        requires { line_size ≤ length page.now }
        ensures { result ≡ raw_header page.now }
    {
        let slots = slots_at(page);
        Header {
            count: codec::number_at(page, 0),
            start: codec::number_at(page, 2),
            kind: page[4],
            own: codec::number_at(page, 6),
            slots,
        }
    }

    // Writes the header line.
    pub fn write(self, page: &mut [u8])
        requires { line_size ≤ length page.old }
        ensures { page.new ≡ raw_bytes self ++ drop line_size page.old }
    {
        let slots = self.slots;
        codec::put_number(page, 0, self.count);
        codec::put_number(page, 2, self.start);
        page[4] = self.kind;
        page[5] = 0;
        codec::put_number(page, 6, self.own);
        put_slots(page, slots);
    }

    // The header once a record of s bytes stands just below start, with its slot as the i-th.
    pub fn inserted(self, i: usize, s: usize) -> Header
        requires { (self ≡ header_of (head_of self)) × (self.count < slot_count) × (i ≤ self.count) × (s ≤ self.start) × (self.start ≤ page_size) }
        ensures { result ≡ header_of (insert_head (head_of self) i s) }
    {
        let at = self.start - s;
        let count = self.count;
        let mut slots = self.slots;
        slots.copy_within(i..count, i + 1);
        slots[i] = at as u16;
        Header {
            count: count + 1,
            start: at,
            slots,
            ..self
        }
    }

    // The header once a record of s bytes stands just below start, in place of the i-th.
    pub fn swapped(self, i: usize, s: usize) -> Header
        requires { (self ≡ header_of (head_of self)) × (self.count ≤ slot_count) × (i < self.count) × (s ≤ self.start) × (self.start ≤ page_size) }
        ensures { result ≡ header_of (update_head (head_of self) i s) }
    {
        let at = self.start - s;
        let mut h = self;
        h.start = at;
        h.slots[i] = at as u16;
        h
    }

    // The header once the i-th slot is dropped.
    pub fn removed(self, i: usize) -> Header
        requires { (self ≡ header_of (head_of self)) × (self.count ≤ slot_count) × (i < self.count) }
        ensures { result ≡ header_of (delete_head (head_of self) i) }
    {
        let last = self.count - 1;
        let mut slots = self.slots;
        slots.copy_within(i + 1..last + 1, i);
        slots[last] = 0;
        Header {
            count: last,
            slots,
            ..self
        }
    }
}
