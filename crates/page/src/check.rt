// Whether a page by itself is sound: one pass over its header and its records, each tested where it stands.
ghost use Rattle.std.specs.Prelude.{◌≡◌, ◌+◌, ◌-◌, ◌*◌, ◌%◌, ◌^◌, ◌<◌, ◌≤◌, true, ◌&&◌, [], ◌∷◌, length, take, replicate, ◌==◌, bit_and, bit_or, nat_le};
ghost use Rattle.codec.specs.Lists.{part, eqs, every, pick};
ghost use Rattle.page.specs.Layout.{page_size, line_size, leaf_kind, value_most, record_at, header_bytes, read_head};
ghost use Rattle.page.specs.Page.{entry_at, head_ok, held_b, page_ok};

const PAGE: usize = 1024;

const LINE: usize = 64;

const SLOTS: usize = 28;

const LEAF: u8 = 1;

const TOP_KEY: u64 = 999_999_999_999;

const VALUE_MOST: u64 = 200;

// A set of the page's 128 units of eight bytes, a bit for each: the lower 64 and the higher 64.
#[derive(Clone, Copy)]
struct Marks {
    low: u64,
    high: u64,
}

impl Marks {
    // No unit.
    fn none() -> Marks
        ensures { result.high * 2 ^ 64 + result.low ≡ 0 }
    {
        Marks { low: 0, high: 0 }
    }

    // The k units from u on.
    fn run(u: usize, k: usize) -> Marks
        requires { (0 < u) × (0 < k) × (k < 64) × (u + k ≤ 128) }
        ensures { result.high * 2 ^ 64 + result.low ≡ (2 ^ k - 1) * 2 ^ u }
    {
        let ones = (1u64 << k) - 1;
        if u < 64 {
            return Marks {
                low: ones << u,
                high: ones >> (64 - u),
            };
        }
        Marks {
            low: 0,
            high: ones << (u - 64),
        }
    }

    // Whether no unit is in both.
    fn apart(self, other: Marks) -> bool
        ensures { result ≡ (bit_and (self.high * 2 ^ 64 + self.low) (other.high * 2 ^ 64 + other.low) == 0) }
    {
        if self.low & other.low != 0 {
            return false;
        }
        self.high & other.high == 0
    }

    // The units that are in one of them.
    fn with(self, other: Marks) -> Marks
        ensures { result.high * 2 ^ 64 + result.low ≡ bit_or (self.high * 2 ^ 64 + self.low) (other.high * 2 ^ 64 + other.low) }
    {
        Marks {
            low: self.low | other.low,
            high: self.high | other.high,
        }
    }
}

// Whether the bytes from `at` on, up to `end`, are zero: a word at a time, the bytes of the first that are below `at` shifted out. The
// words are joined and tested once at the end: compared with as many zeros, check took a fifth longer.
fn blank(page: &[u8], at: usize, end: usize) -> bool
    requires { (at ≤ end) × (end ≤ length page.now) × (end % 8 ≡ 0) }
    ensures { result ≡ eqs (part page.now at (end - at)) (replicate (end - at) 0) }
{
    if end <= at {
        return true;
    }
    let k = at % 8;
    let mut joined = codec::long_at(page, at - k) >> (8 * k);
    for word in page[at - k + 8..end].chunks_exact(8) {
        joined |= codec::long_at(word, 0);
    }
    joined == 0
}

// Whether the header is laid out as it must be, and is of this kind and number.
fn head_ok(page: &[u8], kind: u8, own: usize) -> bool
    ensures { let p = page.now in let h = read_head p in
        result ≡ every ((length p == page_size) ∷ head_ok h ∷ eqs (take line_size p) (header_bytes h) ∷ (h.kind == kind) ∷ (h.own == own) ∷ []) }
{
    if page.len() != PAGE {
        return false;
    }
    let count = codec::number_at(page, 0);
    if SLOTS < count {
        return false;
    }
    let start = codec::number_at(page, 2);
    if start % 8 != 0 {
        return false;
    }
    if start < LINE {
        return false;
    }
    if PAGE < start {
        return false;
    }
    if page[4] != kind {
        return false;
    }
    if page[5] != 0 {
        return false;
    }
    if codec::number_at(page, 6) != own {
        return false;
    }
    // "Slots past the count are zero."
    blank(page, 8 + 2 * count, LINE)
}

// Whether a value of n bytes may stand in a page of this kind: "values 0 to 200 bytes", in an index "a 2-byte page number".
// The difference wraps, so that one test is for both ends: with a test for each kind, check took a tenth longer.
fn length_ok(kind: u8, n: u64) -> bool
    ensures { result ≡ pick (kind == leaf_kind) (nat_le n value_most) (n == 2) }
{
    let (fewest, most) = if kind == LEAF {
        (0, VALUE_MOST)
    } else {
        (2, 2)
    };
    n.wrapping_sub(fewest) <= most - fewest
}

// Whether a record stands at `at`, not below start, laid out as it must be and as long as its kind has it.
fn record_ok(page: &[u8], kind: u8, start: usize, at: usize) -> bool
    requires { (length page.now ≡ page_size) × (at < 65536) }
    ensures { let p = page.now in
        result ≡ (held_b p start (entry_at p at) && pick (kind == leaf_kind) true (length (record_at p at).value == 2)) }
{
    if at < start {
        return false;
    }
    if at % 8 != 0 {
        return false;
    }
    if PAGE < at + 16 {
        return false;
    }
    // The length and the six zeros after it are one number.
    let n = codec::long_at(page, at + 8);
    if !length_ok(kind, n) {
        return false;
    }
    let length = n as usize;
    let end = at + 16 + (length + 7) / 8 * 8;
    if PAGE < end {
        return false;
    }
    if TOP_KEY < codec::long_at(page, at) {
        return false;
    }
    blank(page, at + 16 + length, end)
}

// Whether a page is sound as the page of this kind and number. The kind is a number, no enum of leaf and index: `page_ok` is defined for
// every kind, and a page of height h has kind h + 1.
pub fn page_ok(page: &[u8], kind: u8, own: usize) -> bool
    ensures { result ≡ page_ok kind own page.now }
{
    if !head_ok(page, kind, own) {
        return false;
    }
    let count = codec::number_at(page, 0);
    let start = codec::number_at(page, 2);
    // The least key that may come next, "1 to .." in a leaf and "0 to .." in an index, and the units that are taken.
    let mut low = if kind == LEAF { 1 } else { 0 };
    let mut marks = Marks::none();
    for i in 0..count {
        let at = codec::number_at(page, 8 + 2 * i);
        if !record_ok(page, kind, start, at) {
            return false;
        }
        let key = codec::long_at(page, at);
        if key < low {
            return false;
        }
        let n = codec::long_at(page, at + 8) as usize;
        let units = Marks::run(at / 8, 2 + (n + 7) / 8);
        if !marks.apart(units) {
            return false;
        }
        marks = marks.with(units);
        low = key + 1;
    }
    true
}
