// The tape of a transaction and of a recovery: what differs is found once, the size is known before the first byte is written.
#![tactic(auto)]

ghost use Rattle.std.specs.Prelude.{◌≡◌, ℕ, ◌+◌, ◌*◌, ◌≤◌, length, take};
ghost use Rattle.std.proofs.lemmas.List.Edits.{sets};
ghost use Rattle.codec.specs.Lists.{All};
ghost use Rattle.device.specs.Tape.{tape_bytes};
ghost use Rattle.journal.specs.Changes.{changed_pages};
ghost use Rattle.tape_write.specs.Sizes.{group_bytes};
ghost use Rattle.tape_write.specs.Words.{stage_words, WordIn, lines_past, stage_tape};
ghost use Rattle.tape_write.specs.Calls.{Lent, commit_call, Counted};

use crate::ends::emit_end;
use crate::headers::{changed_headers, emit_closing, same_words};
use crate::sizes::{end_bytes, end_flushes, group_bytes};
use crate::words::{changed_words, count_lines, emit_flushes, emit_words};
use device::Cause;
use journal::{Commit, Way};

mod ends;
mod headers;
mod lines;
pub mod redo;
mod sizes;
mod words;

// What differs: words of stage A and the lines that they lie in, changed headers, and whether the root word is as it was.
#[derive(Clone, Copy)]
pub struct Changes {
    pub words: usize,
    pub lines: usize,
    pub headers: usize,
    pub same: bool,
}

// Finds what differs, with the words and the pages of the headers themselves.
fn find_changes(
    image: &[u8],
    work: &[u8],
    before: &[u8],
    after: &[u8],
    words: &mut [u16],
    pages: &mut [u8],
) -> Changes
    requires lent { Lent image.now work.now before.now after.now }
    requires image_len_bound { (length image.now ≤ 8 * length words.old) × (length pages.old ≡ 64) }
    ensures counted { Counted image.now work.now result }
    ensures words_first { take result.words words.new ≡ stage_words image.now work.now }
    ensures pages_first { take result.headers pages.new ≡ changed_pages image.now work.now }
{
    let n = changed_words(image, work, before, after, words);
    let k = changed_headers(image, work, before, after, pages);
    Changes {
        words: n,
        lines: count_lines(&words[..n]),
        headers: k,
        same: same_words(image, work, 8, 1),
    }
}

// Writes stage A: the word stores, then the flushes of their lines and the barrier.
fn emit_stage(tape: &mut [u8], work: &[u8], words: &[u16], lines: usize)
    requires { (12 * length words.now + group_bytes lines ≤ length tape.old) × All (WordIn work.now) words.now × (lines ≡ length (lines_past 0 words.now)) }
    ensures { tape.new ≡ sets tape.old 0 (tape_bytes (stage_tape work.now words.now)) }
{
    let flushes = 12 * words.len();
    emit_words(tape, 0, work, words);
    emit_flushes(tape, flushes, words);
    emit_closing(tape, flushes + 4 * lines, lines);
}

// Writes the tape that commits the edited image in work, with room for the words that differ.
fn commit_with(
    way: Way,
    image: &[u8],
    work: &mut [u8],
    tape: &mut [u8],
    before: &[u8],
    after: &[u8],
    words: &mut [u16],
) -> Result<Commit, Cause>
    requires { Lent image.now work.old before.now after.now × (length image.now ≤ 8 * length words.old) }
    ensures value { result ≡ (commit_call way image.now work.old tape.old).answer }
    ensures work_after { work.new ≡ (commit_call way image.now work.old tape.old).work }
    ensures tape_after { tape.new ≡ (commit_call way image.now work.old tape.old).tape }
{
    let mut pages = [0u8; 64];
    let found = find_changes(image, work, before, after, words, &mut pages);
    let k = found.headers;
    let same = found.same;
    if 15 < k {
        return Err(Cause::LogFull);
    }
    let stage = 12 * found.words + group_bytes(found.lines);
    let bytes = stage + end_bytes(way, k, same);
    if tape.len() < bytes {
        return Err(Cause::TapeShort);
    }
    emit_stage(tape, work, &words[..found.words], found.lines);
    let place = emit_end(way, work, tape, stage, &pages[..k], same);
    Ok(Commit {
        place,
        bytes,
        flushes: found.lines + end_flushes(way, k, same),
    })
}

// The same, with room for that many words.
fn commit_within<const WORDS: usize>(
    way: Way,
    image: &[u8],
    work: &mut [u8],
    tape: &mut [u8],
    before: &[u8],
    after: &[u8],
) -> Result<Commit, Cause>
    requires { Lent image.now work.old before.now after.now × (length image.now ≤ 8 * WORDS) × (WORDS ≤ 8192) }
    ensures value { result ≡ (commit_call way image.now work.old tape.old).answer }
    ensures work_after { work.new ≡ (commit_call way image.now work.old tape.old).work }
    ensures tape_after { tape.new ≡ (commit_call way image.now work.old tape.old).tape }
{
    let mut words = [0u16; WORDS];
    commit_with(way, image, work, tape, before, after, &mut words)
}

// Writes the tape that commits the edited image in work. `before` and `after` mark the pages reached in image and in work. An array of
// words for the smallest image takes less time to clear.
pub fn commit(
    way: Way,
    image: &[u8],
    work: &mut [u8],
    tape: &mut [u8],
    before: &[u8],
    after: &[u8],
) -> Result<Commit, Cause>
    requires { Lent image.now work.old before.now after.now }
    ensures value { result ≡ (commit_call way image.now work.old tape.old).answer }
    ensures work_after { work.new ≡ (commit_call way image.now work.old tape.old).work }
    ensures tape_after { tape.new ≡ (commit_call way image.now work.old tape.old).tape }
{
    if image.len() == 8192 {
        return commit_within::<1024>(way, image, work, tape, before, after);
    }
    commit_within::<8192>(way, image, work, tape, before, after)
}
