// Recovery of a waiting mark: the logged headers judged, the replayed image, and the tape.
ghost use Rattle.std.specs.Prelude.{◌≡◌, true, ℕ, ◌+◌, ◌*◌, ◌≤◌, length};
ghost use Rattle.image.specs.PageZero.{page_count};
ghost use Rattle.journal.specs.Recovery.{logged, logged_ok, with_headers, replayed};
ghost use Rattle.tape_write.specs.Calls.{LogWaits, redo_call};

use crate::ends::emit_replay;
use crate::headers::Log;
use crate::sizes::replay_bytes;
use device::Cause;
use journal::{Redone, Way};

// Whether the pages of the logged headers are distinct, in 1 to N-1: page 0 is marked, and then each page as it is named.
pub fn logged_ok(image: &[u8], headers: usize) -> bool
    requires { (64 * headers + 64 ≤ length image.now) × (length image.now ≤ 65536) }
    ensures { result ≡ logged_ok (page_count image.now) (logged headers image.now) }
{
    let n = image.len() / 1024;
    let mut marks = [0u8; 64];
    marks[0] = 1;
    for i in 0..headers {
        let page = codec::number_at(image, 64 * i + 70);
        if n <= page || marks[page] != 0 {
            return false;
        }
        marks[page] = 1;
    }
    true
}

// Writes the logged headers to their pages.
pub fn put_headers(work: &mut [u8], image: &[u8], headers: usize)
    requires headers_in_bounds { (64 * headers + 64 ≤ length image.now) × (length work.old ≡ length image.now) }
    requires image_value { logged_ok (page_count image.now) (logged headers image.now) ≡ true }
    ensures { work.new ≡ with_headers (logged headers image.now) work.old }
{
    for i in 0..headers {
        let page = codec::number_at(image, 64 * i + 70);
        codec::copy_line(work, 1024 * page, image, 64 * i + 64);
    }
}

// The replayed image, in work.
pub fn replay(image: &[u8], work: &mut [u8], headers: usize, root: usize)
    requires { LogWaits image.now work.old headers }
    ensures { work.new ≡ replayed (logged headers image.now) root image.now }
{
    codec::copy_all(work, image);
    put_headers(work, image, headers);
    codec::put_long(work, 8, root as u64);
    codec::put_long(work, 0, 0);
}

// Writes the tape of a recovery, and the replayed image in work; if the tape is too short, work holds the image.
pub fn redo(
    way: Way,
    image: &[u8],
    work: &mut [u8],
    tape: &mut [u8],
    headers: usize,
    root: usize,
) -> Result<Redone, Cause>
    requires { LogWaits image.now work.old headers }
    ensures value { result ≡ (redo_call way image.now headers root tape.old).answer }
    ensures work_after { work.new ≡ (redo_call way image.now headers root tape.old).work }
    ensures tape_after { tape.new ≡ (redo_call way image.now headers root tape.old).tape }
{
    let same = codec::long_at(image, 8) as usize == root;
    let bytes = replay_bytes(way, headers, same);
    if tape.len() < bytes {
        codec::copy_all(work, image);
        return Err(Cause::TapeShort);
    }
    replay(image, work, headers, root);
    let log = Log {
        src: image,
        count: headers,
    };
    emit_replay(way, tape, 0, log, same, root as u64);
    Ok(Redone {
        bytes,
        flushes: headers + 1,
    })
}
