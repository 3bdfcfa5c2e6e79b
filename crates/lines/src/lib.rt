// Lines and columns of the sheet: a line of the form is read, its edit written for an edit list, and a line of the listing printed.
#![tactic(auto)]

ghost use Rattle.std.specs.Prelude.{◌≡◌, ◌∷◌, ◌+◌, ◌-◌, ◌≤◌, ◌<◌, eqb, length, drop};
ghost use Rattle.codec.specs.Lists.{splice, pick, eqs};
ghost use Rattle.codec.specs.Numbers.{bytes_of};
ghost use Rattle.lines.specs.Columns.{space, digit_zero, digit, front, columns, value};
ghost use Rattle.lines.specs.Form.{fields_bytes, line_bytes, meaning, line_in, line_edit};
ghost use Rattle.lines.specs.Listing.{row_bytes, total_bytes, number_bytes};

// A line of the form.
#[derive(Clone, Copy)]
pub enum Line {
    Commit,
    // The kind is 1 to 3, and stays a number: `put_edit` takes one, and promises for every u8.
    Edit { kind: u8, key: u64, price: u64 },
}

// The last digit of a number.
fn last_digit(n: u64) -> u8
    ensures { result ≡ digit n }
{
    b'0' + (n % 10) as u8
}

// The same where something is left of the number, else a space.
fn front_digit(n: u64) -> u8
    ensures { result ≡ pick (eqb n 0) space (digit n) }
{
    if n == 0 { b' ' } else { last_digit(n) }
}

// Puts what is left of a number into the columns, from the right.
fn put_front(dst: &mut [u8], n: u64)
    ensures { dst.new ≡ front (length dst.old) n }
{
    let mut left = n;
    for i in (0..dst.len()).rev() {
        dst[i] = front_digit(left);
        left /= 10;
    }
}

// Puts a number into the w columns from `at` on, right-justified.
pub fn put_columns(dst: &mut [u8], at: usize, w: usize, n: u64)
    requires { at + w ≤ length dst.old }
    ensures { dst.new ≡ splice dst.old at (columns w n) }
{
    if w == 0 {
        return;
    }
    let last = at + w - 1;
    dst[last] = last_digit(n);
    put_front(&mut dst[at..last], n / 10);
}

// What a column counts.
fn worth(c: u8) -> u64
    ensures { (result ≡ c - digit_zero) × (result < 208) }
{
    u64::from(c.saturating_sub(b'0'))
}

// The number that the digits of the columns hold.
fn value_of(columns: &[u8]) -> u64
    requires { length columns.now ≤ 13 }
    ensures { result ≡ value columns.now }
{
    let mut n = 0;
    for c in columns {
        n = 10 * n + worth(*c);
    }
    n
}

// Puts numbers, each into columns of its width, one after the other, and a line feed.
fn put_line(dst: &mut [u8], fields: &[(usize, u64)])
    requires { length dst.old ≡ length (fields_bytes fields.now) }
    ensures { dst.new ≡ fields_bytes fields.now }
{
    let mut at = 0;
    for (w, n) in fields {
        put_columns(dst, at, *w, *n);
        at += *w;
    }
    dst[at] = b'\n';
}

// Whether this is the line of these numbers.
#[tactic(auto, using(crate::proofs::Columns::widths), unfolding(crate::specs::Form::fields_bytes, crate::specs::Form::line_bytes))]
fn is_line(src: &[u8], kind: u64, key: u64, price: u64) -> bool
    ensures { result ≡ eqs src.now (line_bytes kind key price) }
{
    let mut line = [0u8; 28];
    put_line(&mut line, &[(2, kind), (13, key), (12, price)]);
    codec::same(src, &line)
}

// What a line of these numbers says, if it is of the form.
#[tactic(auto, unfolding(crate::specs::Form::meaning))]
fn line_of(kind: u64, key: u64, price: u64) -> Option<Line>
    ensures { result ≡ meaning kind key price }
{
    match (kind, key, price) {
        (0, 0, 0) => Some(Line::Commit),
        (1 | 2, _, _) | (3, _, 0) => Some(Line::Edit {
            kind: kind as u8,
            key,
            price,
        }),
        _ => None,
    }
}

// Reads the line at `at`; one that is cut short is bad.
pub fn read_line(src: &[u8], at: usize) -> Option<Line>
    ensures { result ≡ line_in (drop at src.now) }
{
    let line = src.get(at..)?.get(..28)?;
    let kind = value_of(&line[..2]);
    let key = value_of(&line[2..15]);
    let price = value_of(&line[15..27]);
    if !is_line(line, kind, key, price) {
        return None;
    }
    line_of(kind, key, price)
}

// Writes the head of an edit: its kind, the length of its value and its key.
fn put_head(list: &mut [u8], at: usize, kind: u8, n: u8, key: u64)
    requires { at + 10 ≤ length list.old }
    ensures { list.new ≡ splice list.old at (kind ∷ n ∷ bytes_of 8 key) }
{
    list[at] = kind;
    list[at + 1] = n;
    codec::put_long(list, at + 2, key);
}

// Writes a line's edit into an edit list at `at`, and answers where the next one goes.
pub fn put_edit(list: &mut [u8], at: usize, kind: u8, key: u64, price: u64) -> usize
    requires { at + 18 ≤ length list.old }
    ensures value { result ≡ at + length (line_edit kind key price) }
    ensures list_after { list.new ≡ splice list.old at (line_edit kind key price) }
{
    if kind != 1 && kind != 2 {
        put_head(list, at, 3, 0, key);
        return at + 10;
    }
    put_head(list, at, kind, 8, key);
    codec::put_long(list, at + 10, price);
    at + 18
}

// Writes the listing's row of a record.
#[tactic(auto, using(crate::proofs::Columns::widths), unfolding(crate::specs::Form::fields_bytes, crate::specs::Listing::row_bytes))]
pub fn put_row(dst: &mut [u8], page: usize, slot: usize, key: u64, n: usize)
    requires { length dst.old ≡ 26 }
    ensures { dst.new ≡ row_bytes page slot key n }
{
    put_line(
        dst,
        &[(4, page as u64), (4, slot as u64), (13, key), (4, n as u64)],
    );
}

// Writes the listing's last line.
#[tactic(auto, using(crate::proofs::Columns::widths), unfolding(crate::specs::Form::fields_bytes, crate::specs::Listing::total_bytes))]
pub fn put_totals(dst: &mut [u8], records: u64, accepted: u64, refused: u64)
    requires { length dst.old ≡ 25 }
    ensures { dst.new ≡ total_bytes records accepted refused }
{
    put_line(dst, &[(8, records), (8, accepted), (8, refused)]);
}

// Writes the number of a bad line.
#[tactic(auto, using(crate::proofs::Columns::widths), unfolding(crate::specs::Form::fields_bytes, crate::specs::Listing::number_bytes))]
pub fn put_line_number(dst: &mut [u8], n: u64)
    requires { length dst.old ≡ 9 }
    ensures { dst.new ≡ number_bytes n }
{
    put_line(dst, &[(8, n)]);
}
