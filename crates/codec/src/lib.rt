// Bytes: numbers read and written low byte first, parts copied, filled and compared.
#![tactic(auto)]

ghost use Rattle.std.specs.Prelude.{◌≡◌, ◌+◌, ◌≤◌, ◌<◌, length, drop, replicate};
ghost use Rattle.codec.specs.Lists.{part, splice, eqs};
ghost use Rattle.codec.specs.Numbers.{number, bytes_of};

// A byte as a number. Callers index by bytes of lent slices, and the bound is stated here once for all of them.
pub fn wide(x: u8) -> usize
    ensures { (result ≡ x) × (result < 256) }
{
    usize::from(x)
}

// The same of two bytes.
pub fn wide16(x: u16) -> usize
    ensures { (result ≡ x) × (result < 65536) }
{
    usize::from(x)
}

// The N bytes at `at`.
fn bytes_at<const N: usize>(s: &[u8], at: usize) -> [u8; N]
    requires { at + N ≤ length s.now }
    ensures { result ≡ part s.now at N }
{
    let mut bytes = [0; N];
    bytes.copy_from_slice(&s[at..at + N]);
    bytes
}

// Writes the N bytes.
fn put_bytes<const N: usize>(s: &mut [u8], at: usize, bytes: [u8; N])
    requires { at + N ≤ length s.old }
    ensures { s.new ≡ splice s.old at bytes.entry }
{
    s[at..at + N].copy_from_slice(&bytes);
}

// The number in the two bytes at `at`.
pub fn number_at(s: &[u8], at: usize) -> usize
    requires { at + 2 ≤ length s.now }
    ensures { (result ≡ number (part s.now at 2)) × (result < 65536) }
{
    usize::from(u16::from_le_bytes(bytes_at(s, at)))
}

// The number in the eight bytes at `at`.
pub fn long_at(s: &[u8], at: usize) -> u64
    requires { at + 8 ≤ length s.now }
    ensures { result ≡ number (part s.now at 8) }
{
    u64::from_le_bytes(bytes_at(s, at))
}

// Writes the two low bytes of a number.
pub fn put_number(s: &mut [u8], at: usize, v: usize)
    requires { at + 2 ≤ length s.old }
    ensures { s.new ≡ splice s.old at (bytes_of 2 v) }
{
    put_bytes(s, at, ((v % 65536) as u16).to_le_bytes());
}

// Writes a number as eight bytes.
pub fn put_long(s: &mut [u8], at: usize, v: u64)
    requires { at + 8 ≤ length s.old }
    ensures { s.new ≡ splice s.old at (bytes_of 8 v) }
{
    put_bytes(s, at, v.to_le_bytes());
}

// Copies the n bytes of src from `from` on to `at` of dst.
pub fn copy(dst: &mut [u8], at: usize, src: &[u8], from: usize, n: usize)
    requires { (at + n ≤ length dst.old) × (from + n ≤ length src.now) }
    ensures { dst.new ≡ splice dst.old at (part src.now from n) }
{
    dst[at..at + n].copy_from_slice(&src[from..from + n]);
}

// Copies eight bytes, through an array, of which the compiler makes one load and one store. It is not told whether two slices overlap:
// `copy` tests that at each call, and with it `run` took a fifth longer.
pub fn copy_word(dst: &mut [u8], at: usize, src: &[u8], from: usize)
    requires { (at + 8 ≤ length dst.old) × (from + 8 ≤ length src.now) }
    ensures { dst.new ≡ splice dst.old at (part src.now from 8) }
{
    put_bytes(dst, at, bytes_at::<8>(src, from));
}

// Copies 64 bytes, likewise: four loads and four stores.
pub fn copy_line(dst: &mut [u8], at: usize, src: &[u8], from: usize)
    requires { (at + 64 ≤ length dst.old) × (from + 64 ≤ length src.now) }
    ensures { dst.new ≡ splice dst.old at (part src.now from 64) }
{
    put_bytes(dst, at, bytes_at::<64>(src, from));
}

// Copies a whole image, which has at most 65,536 bytes.
pub fn copy_all(dst: &mut [u8], src: &[u8])
    requires { (length dst.old ≡ length src.now) × (length src.now ≤ 65536) }
    ensures { dst.new ≡ src.now }
{
    dst.copy_from_slice(src);
}

// Writes n times the same byte.
pub fn fill(dst: &mut [u8], at: usize, n: usize, value: u8)
    requires { at + n ≤ length dst.old }
    ensures { dst.new ≡ splice dst.old at (replicate n value) }
{
    dst[at..at + n].fill(value);
}

// Whether two slices hold the same bytes.
pub fn same(a: &[u8], b: &[u8]) -> bool
    ensures { result ≡ eqs a.now b.now }
{
    a == b
}
