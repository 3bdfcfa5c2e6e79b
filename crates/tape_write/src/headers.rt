// Changed headers: found, written to the log's lines of work, and the stores and flushes of log lines and of header lines.
ghost use Rattle.std.specs.Prelude.{◌≡◌, ℕ, ◌+◌, ◌*◌, ◌≤◌, ◌<◌, length, take};
ghost use Rattle.std.proofs.lemmas.List.Edits.{sets};
ghost use Rattle.codec.specs.Lists.{part, splice, eqs, All};
ghost use Rattle.device.specs.Tape.{tape_bytes};
ghost use Rattle.page.specs.Layout.{page_size, line_size};
ghost use Rattle.journal.specs.Changes.{changed_pages};
ghost use Rattle.journal.specs.Tape.{new_headers, join_lines};
ghost use Rattle.journal.specs.Recovery.{logged};
ghost use Rattle.tape_write.specs.Lines.{PageIn, line_most, line_for, line_stores, line_flushes, line_tape, closing};
ghost use Rattle.tape_write.specs.Sizes.{lines_bytes, group_bytes};
ghost use Rattle.tape_write.specs.Calls.{Lent};

use crate::lines::emit_line;
use crate::sizes::lines_bytes;
use journal::Way;

// Whether n words from `at` on are the same in both. What differs is joined and tested once at the end: without a way out the loop takes
// several words in a step. Tried: with `==` of the two parts a transaction on 64 pages takes a tenth longer.
pub fn same_words(a: &[u8], b: &[u8], at: usize, n: usize) -> bool
    requires { (at + 8 * n ≤ length a.now) × (at + 8 * n ≤ length b.now) }
    ensures { result ≡ eqs (part a.now at (8 * n)) (part b.now at (8 * n)) }
{
    let mut differ = 0u64;
    for i in 0..n {
        differ |= codec::long_at(a, at + 8 * i) ^ codec::long_at(b, at + 8 * i);
    }
    differ == 0
}

// Collects the pages reached before and after whose header differs.
pub fn changed_headers(
    image: &[u8],
    work: &[u8],
    before: &[u8],
    after: &[u8],
    pages: &mut [u8],
) -> usize
    requires { Lent image.now work.now before.now after.now × (length pages.old ≡ 64) }
    ensures value { result ≡ length (changed_pages image.now work.now) }
    ensures pages_first { take result pages.new ≡ changed_pages image.now work.now }
{
    let count = image.len() / 1024;
    let mut k = 0;
    for p in 1..count {
        if before[p] != 0 && after[p] != 0 && !same_words(image, work, 1024 * p, 8) {
            pages[k] = p as u8;
            k += 1;
        }
    }
    k
}

// Writes the headers of the pages to the log's lines, from line 1 on.
pub fn log_headers(work: &mut [u8], pages: &[u8])
    requires { (length pages.now ≤ 15) × (page_size ≤ length work.old) × All (PageIn work.old) pages.now }
    ensures { work.new ≡ splice work.old line_size (join_lines (new_headers work.old pages.now)) }
{
    for (i, page) in pages.iter().enumerate() {
        let from = 1024 * codec::wide(*page);
        work.copy_within(from..from + 64, 64 * i + 64);
    }
}

// The headers in log lines 1 to `count` of an image.
#[derive(Clone, Copy)]
pub struct Log<'a> {
    pub src: &'a [u8],
    pub count: usize,
    pub ghost there: { 64 * count + 64 ≤ length src.now },
    pub ghost few: { count ≤ 65536 },
}

// The line that the header in log line l is stored to: the first of its own page, or the log line itself.
pub fn line_for(src: &[u8], l: usize, own: bool) -> usize
    requires { (64 * l + 64 ≤ length src.now) × (l ≤ line_most) }
    ensures { (result ≡ line_for own l (part src.now (64 * l) 64)) × (result ≤ line_most) }
{
    if own {
        return 16 * codec::number_at(src, 64 * l + 6);
    }
    l
}

// Writes the stores of the log's headers.
pub fn emit_headers(way: Way, tape: &mut [u8], at: usize, log: Log, own: bool)
    requires { at + lines_bytes way log.count ≤ length tape.old }
    ensures { tape.new ≡ sets tape.old at (tape_bytes (line_stores way own 1 (logged log.entry.count log.entry.src.now))) }
{
    let src = log.src;
    for i in 0..log.count {
        let to = at + lines_bytes(way, i);
        let l = i + 1;
        emit_line(way, tape, to, line_for(src, l, own), src, 64 * l);
    }
}

// Writes their flushes. Not one function with `emit_headers`: it would take what is written at a line as a closure over the tape, and its contract.
pub fn flush_headers(tape: &mut [u8], at: usize, log: Log, own: bool)
    requires { at + 4 * log.count ≤ length tape.old }
    ensures { tape.new ≡ sets tape.old at (tape_bytes (line_flushes own 1 (logged log.entry.count log.entry.src.now))) }
{
    for i in 0..log.count {
        device::emit_flush(tape, at + 4 * i, line_for(log.src, i + 1, own));
    }
}

// Writes the barrier of n flushes; none where there is no flush.
pub fn emit_closing(tape: &mut [u8], at: usize, n: usize)
    requires { at + length (tape_bytes (closing n)) ≤ length tape.old }
    ensures { tape.new ≡ sets tape.old at (tape_bytes (closing n)) }
{
    if n == 0 {
        return;
    }
    device::emit_barrier(tape, at);
}

// Writes the log's headers: their stores, their flushes and the barrier.
pub fn emit_lines(way: Way, tape: &mut [u8], at: usize, log: Log, own: bool)
    requires { at + lines_bytes way log.count + group_bytes log.count ≤ length tape.old }
    ensures { tape.new ≡ sets tape.old at (tape_bytes (line_tape way own (logged log.entry.count log.entry.src.now))) }
{
    let flushes = at + lines_bytes(way, log.count);
    emit_headers(way, tape, at, log, own);
    flush_headers(tape, flushes, log, own);
    emit_closing(tape, flushes + 4 * log.count, log.count);
}
