// Stage A: the words that differ, found in one pass over both images, their stores, and the flushes of their lines.
ghost use Rattle.std.specs.Prelude.{◌≡◌, [], map, ℕ, ◌+◌, ◌-◌, ◌*◌, ◌≤◌, length, take};
ghost use Rattle.std.proofs.lemmas.List.Edits.{sets};
ghost use Rattle.codec.specs.Lists.{All};
ghost use Rattle.device.specs.Tape.{flush, tape_bytes};
ghost use Rattle.tape_write.specs.Words.{differing, stage_words, WordIn, word_store, lines_past};
ghost use Rattle.tape_write.specs.Calls.{Lent};

use crate::headers::same_words;

// Puts the words from `from` up to `to` that differ behind the `count` words that are there. Their new number is the answer.
pub fn collect(
    image: &[u8],
    work: &[u8],
    from: usize,
    to: usize,
    words: &mut [u16],
    count: usize,
) -> usize
    requires { (from ≤ to) × (to ≤ 8192) × (8 * to ≤ length image.now) × (8 * to ≤ length work.now) × (count + (to - from) ≤ length words.old) }
    ensures value { result ≡ count + length (differing image.now work.now (to - from) from) }
    ensures words_after { words.new ≡ sets words.old count (differing image.now work.now (to - from) from) }
{
    let mut n = count;
    for k in from..to {
        if codec::long_at(image, 8 * k) != codec::long_at(work, 8 * k) {
            words[n] = k as u16;
            n += 1;
        }
    }
    n
}

// The same, with the words compared as a whole first. If `kept` is 0, they are known to be the same.
pub fn collect_changed(
    image: &[u8],
    work: &[u8],
    from: usize,
    to: usize,
    kept: u8,
    words: &mut [u16],
    count: usize,
) -> usize
    requires { (from ≤ to) × (to ≤ 8192) × (8 * to ≤ length image.now) × (8 * to ≤ length work.now) × (count + (to - from) ≤ length words.old) × (kept ≡ 0 → differing image.now work.now (to - from) from ≡ []) }
    ensures value { result ≡ count + length (differing image.now work.now (to - from) from) }
    ensures words_after { words.new ≡ sets words.old count (differing image.now work.now (to - from) from) }
{
    if kept == 0 {
        return count;
    }
    if same_words(image, work, 8 * from, to - from) {
        return count;
    }
    collect(image, work, from, to, words, count)
}

// Collects the words that stage A stores, page by page: of a page reached before, those past its header.
pub fn changed_words(
    image: &[u8],
    work: &[u8],
    before: &[u8],
    after: &[u8],
    words: &mut [u16],
) -> usize
    requires { Lent image.now work.now before.now after.now × (length image.now ≤ 8 * length words.old) }
    ensures value { result ≡ length (stage_words image.now work.now) }
    ensures words_first { take result words.new ≡ stage_words image.now work.now }
{
    let pages = image.len() / 1024;
    let mut n = 0;
    for p in 1..pages {
        let from = 128 * p + 8 * codec::wide(before[p]);
        let to = 128 * p + 128;
        n = collect_changed(image, work, from, to, after[p], words, n);
    }
    n
}

// The number of lines that the words lie in. They rise, and none lies in line 0.
pub fn count_lines(words: &[u16]) -> usize
    ensures { result ≡ length (lines_past 0 words.now) }
{
    let mut last = 0;
    let mut lines = 0;
    for k in words {
        let line = codec::wide16(*k) / 8;
        if line != last {
            last = line;
            lines += 1;
        }
    }
    lines
}

// Writes the stores of the words.
pub fn emit_words(tape: &mut [u8], at: usize, work: &[u8], words: &[u16])
    requires { (at + 12 * length words.now ≤ length tape.old) × All (WordIn work.now) words.now }
    ensures { tape.new ≡ sets tape.old at (tape_bytes (map (word_store work.now) words.now)) }
{
    for (i, k) in words.iter().enumerate() {
        let word = codec::wide16(*k);
        device::emit_word(tape, at + 12 * i, word, work, 8 * word);
    }
}

// Writes the flushes of the lines that the words lie in. Not one walk with `count_lines`: it would take a closure over the tape, and its contract.
pub fn emit_flushes(tape: &mut [u8], at: usize, words: &[u16])
    requires { at + 4 * length (lines_past 0 words.now) ≤ length tape.old }
    ensures { tape.new ≡ sets tape.old at (tape_bytes (map flush (lines_past 0 words.now))) }
{
    let mut last = 0;
    let mut to = at;
    for k in words {
        let line = codec::wide16(*k) / 8;
        if line != last {
            device::emit_flush(tape, to, line);
            last = line;
            to += 4;
        }
    }
}
