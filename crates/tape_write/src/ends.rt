// What follows stage A: the one changed place, or the log and its replay.
ghost use Rattle.std.specs.Prelude.{◌≡◌, [], ◌∷◌, ◌++◌, ℕ, ◌+◌, ◌*◌, ◌≤◌, length};
ghost use Rattle.std.proofs.lemmas.List.Edits.{sets};
ghost use Rattle.codec.specs.Lists.{pick, All};
ghost use Rattle.codec.specs.Numbers.{bytes_of};
ghost use Rattle.device.specs.Tape.{store, flush, tape_bytes};
ghost use Rattle.device.specs.Cut.{with_barrier};
ghost use Rattle.page.specs.Layout.{page_size};
ghost use Rattle.image.specs.PageZero.{mark_bytes};
ghost use Rattle.journal.specs.Changes.{header_line};
ghost use Rattle.journal.specs.Log.{page_lines, ending, replay_tape, log_tape};
ghost use Rattle.journal.specs.Tape.{new_headers, mark_flush, by_log, choose};
ghost use Rattle.journal.specs.Recovery.{logged};
ghost use Rattle.tape_write.specs.Lines.{PageIn};
ghost use Rattle.tape_write.specs.Sizes.{replay_bytes, log_bytes, end_bytes};

use crate::headers::{Log, emit_lines, log_headers};
use crate::sizes::{commits_alone, group_bytes, lines_bytes};
use journal::{CommitPlace, Way};

// Writes the store of a number to a word.
pub fn emit_number(tape: &mut [u8], at: usize, word: usize, v: u64)
    requires { at + 12 ≤ length tape.old }
    ensures { tape.new ≡ sets tape.old at (tape_bytes (store (8 * word) (bytes_of 8 v) ∷ [])) }
{
    let mut bytes = [0u8; 8];
    codec::put_long(&mut bytes, 0, v);
    device::emit_word(tape, at, word, &bytes, 0);
}

// Writes the flush of one line, and its barrier.
pub fn emit_wait(tape: &mut [u8], at: usize, line: usize)
    requires { at + 8 ≤ length tape.old }
    ensures { tape.new ≡ sets tape.old at (tape_bytes (with_barrier (flush line ∷ []))) }
{
    device::emit_flush(tape, at, line);
    device::emit_barrier(tape, at + 4);
}

// Writes the store of a number to a word of line 0, the flush of the line and its barrier.
pub fn emit_settled(tape: &mut [u8], at: usize, word: usize, v: u64)
    requires { at + 20 ≤ length tape.old }
    ensures { tape.new ≡ sets tape.old at (tape_bytes (store (8 * word) (bytes_of 8 v) ∷ with_barrier (flush 0 ∷ []))) }
{
    emit_number(tape, at, word, v);
    emit_wait(tape, at + 12, 0);
}

// Writes the end of a replay: the root word if it differs, mark 0, the flush of line 0 and its barrier.
pub fn emit_ending(tape: &mut [u8], at: usize, same: bool, root: u64)
    requires { at + 20 + pick same 0 12 ≤ length tape.old }
    ensures { tape.new ≡ sets tape.old at (tape_bytes (ending same root)) }
{
    if same {
        emit_settled(tape, at, 0, 0);
    } else {
        emit_number(tape, at, 1, root);
        emit_settled(tape, at + 12, 0, 0);
    }
}

// Writes what follows the mark and its flush, of the log's headers: their stores, their flushes, the end.
pub fn emit_replay(way: Way, tape: &mut [u8], at: usize, log: Log, same: bool, root: u64)
    requires { at + replay_bytes way log.count same ≤ length tape.old }
    ensures { tape.new ≡ sets tape.old at (tape_bytes (replay_tape way (logged log.entry.count log.entry.src.now) same root)) }
{
    let size = lines_bytes(way, log.count) + group_bytes(log.count);
    emit_lines(way, tape, at, log, true);
    emit_ending(tape, at + size, same, root);
}

// Writes a commit by the log, of its headers: the log, the mark, its flush, and the replay.
pub fn emit_log(way: Way, tape: &mut [u8], at: usize, log: Log, same: bool, root: u64)
    requires { (at + log_bytes way log.count same ≤ length tape.old) × (log.count ≤ 15) }
    ensures { let hs = logged log.entry.count log.entry.src.now in tape.new ≡ sets tape.old at (tape_bytes (log_tape way hs ++ (store 0 (mark_bytes log.entry.count root) ∷ (mark_flush ++ replay_tape way hs same root)))) }
{
    let size = lines_bytes(way, log.count) + group_bytes(log.count);
    emit_lines(way, tape, at, log, false);
    let mark = 1 + 256 * (log.count as u64) + 65536 * (root % 65536);
    emit_settled(tape, at + size, 0, mark);
    emit_replay(way, tape, at + size + 20, log, same, root);
}

// Writes the commit of one changed header: its line store, the flush and its barrier.
pub fn emit_header(tape: &mut [u8], at: usize, work: &[u8], page: usize)
    requires { (at + 76 ≤ length tape.old) × PageIn work.now page }
    ensures { tape.new ≡ sets tape.old at (tape_bytes (store (page_size * page) (header_line work.now page) ∷ with_barrier (flush (page_lines * page) ∷ []))) }
{
    device::emit_line(tape, at, 16 * page, work, 1024 * page);
    emit_wait(tape, at + 68, 16 * page);
}

// Writes a commit by the log, of the headers of the pages: work takes them in its log lines, and the tape goes by these.
pub fn emit_by_log(way: Way, work: &mut [u8], tape: &mut [u8], at: usize, pages: &[u8], same: bool)
    requires { (at + log_bytes way (length pages.now) same ≤ length tape.old) × (length pages.now ≤ 15) × (page_size ≤ length work.old) × All (PageIn work.old) pages.now }
    ensures work_after { work.new ≡ (by_log way [] work.old same (new_headers work.old pages.now)).work }
    ensures tape_after { tape.new ≡ sets tape.old at (tape_bytes (by_log way [] work.old same (new_headers work.old pages.now)).tape) }
{
    let root = codec::long_at(work, 8);
    log_headers(work, pages);
    let log = Log {
        src: work,
        count: pages.len(),
    };
    emit_log(way, tape, at, log, same, root);
}

// Writes what follows stage A, with the headers of the pages changed.
pub fn emit_end(
    way: Way,
    work: &mut [u8],
    tape: &mut [u8],
    at: usize,
    pages: &[u8],
    same: bool,
) -> CommitPlace
    requires { (at + end_bytes way (length pages.now) same ≤ length tape.old) × (length pages.now ≤ 15) × (page_size ≤ length work.old) × All (PageIn work.old) pages.now }
    ensures value { result ≡ (choose way [] work.old same pages.now).place }
    ensures work_after { work.new ≡ (choose way [] work.old same pages.now).work }
    ensures tape_after { tape.new ≡ sets tape.old at (tape_bytes (choose way [] work.old same pages.now).tape) }
{
    if pages.is_empty() {
        emit_settled(tape, at, 1, codec::long_at(work, 8));
        return CommitPlace::Root;
    }
    if commits_alone(way, pages.len(), same) {
        let page = codec::wide(pages[0]);
        emit_header(tape, at, work, page);
        return CommitPlace::Header(page);
    }
    emit_by_log(way, work, tape, at, pages, same);
    CommitPlace::Log
}
