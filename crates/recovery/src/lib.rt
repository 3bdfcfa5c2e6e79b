// Recovery: what a waiting mark asks for is done. Its definition is in specs/; the code that replays a log and writes its tape is in
// tape_write.
#![tactic(auto)]

ghost use Rattle.std.specs.Prelude.{◌≡◌, true, List, ℕ, ◌≤◌, length};
ghost use Rattle.device.specs.Calls.{is_image_size};
ghost use Rattle.image.specs.PageZero.{page_zero};
ghost use Rattle.image.specs.Image.{tree_ok};
ghost use Rattle.image.specs.declared.PageZero.TheVariants.{Waiting, Ready};
ghost use Rattle.journal.specs.Recovery.{logged, replayed};
ghost use Rattle.journal.specs.Holds.{Waits};
ghost use Rattle.journal.specs.declared.Way.{Way};
ghost use Rattle.journal.specs.declared.Way.TheVariants.{ByLine, ByWords};
ghost use Rattle.recovery.specs.Calls.{recover_call};

use device::{Cause, Refusal, is_image_size};
use image::PageZero;
use image::page_zero::page_zero;
use image::tree::tree_ok;
use journal::{Redone, Way};
use tape_write::redo::{logged_ok, redo, replay};

// Whether the replayed image has a sound tree. It is made in a scratch image: a refusal leaves work as it was.
fn sound_in(scratch: &mut [u8], image: &[u8], headers: usize, root: usize) -> bool
    requires { (is_image_size (length image.now) ≡ true) × Waits image.now headers root × (length scratch.old ≡ length image.now) }
    ensures { result ≡ tree_ok (replayed (logged headers image.now) root image.now) root }
{
    replay(image, scratch, headers, root);
    tree_ok(scratch, root)
}

// The same, in the front of a scratch buffer of that many bytes.
fn sound_within<const BYTES: usize>(image: &[u8], headers: usize, root: usize) -> bool
    requires { (is_image_size (length image.now) ≡ true) × Waits image.now headers root × (length image.now ≤ BYTES) × (BYTES ≤ 65536) }
    ensures { result ≡ tree_ok (replayed (logged headers image.now) root image.now) root }
{
    let mut scratch = [0u8; BYTES];
    let n = image.len();
    sound_in(&mut scratch[..n], image, headers, root)
}

// Whether the replayed image has a sound tree. The scratch buffer of the smallest size takes less time to clear.
fn replay_ok(image: &[u8], headers: usize, root: usize) -> bool
    requires { (is_image_size (length image.now) ≡ true) × Waits image.now headers root }
    ensures { result ≡ tree_ok (replayed (logged headers image.now) root image.now) root }
{
    if image.len() == 8192 {
        return sound_within::<8192>(image, headers, root);
    }
    sound_within::<65536>(image, headers, root)
}

// Recovers an image whose mark waits.
fn redo_log(
    way: Way,
    image: &[u8],
    work: &mut [u8],
    tape: &mut [u8],
    headers: usize,
    root: usize,
) -> Result<Redone, Refusal>
    requires { (is_image_size (length image.now) ≡ true) × (length work.old ≡ length image.now) × (page_zero image.now ≡ Waiting headers root) }
    ensures value { result ≡ (recover_call way image.now work.old tape.old).answer }
    ensures work_after { work.new ≡ (recover_call way image.now work.old tape.old).work }
    ensures tape_after { tape.new ≡ (recover_call way image.now work.old tape.old).tape }
{
    if !logged_ok(image, headers) {
        return Err(Refusal::of(Cause::Unsound));
    }
    if !replay_ok(image, headers, root) {
        return Err(Refusal::of(Cause::Unsound));
    }
    redo(way, image, work, tape, headers, root).map_err(Refusal::of)
}

// Recovers an image whose mark is 0: "Recovery with mark 0 gives no commands."
fn keep(image: &[u8], work: &mut [u8], root: usize) -> Result<Redone, Refusal>
    requires { (is_image_size (length image.now) ≡ true) × (length work.old ≡ length image.now) × (page_zero image.now ≡ Ready root) }
    ensures value { (way : Way) (tape : List ℕ) → result ≡ (recover_call way image.now work.old tape).answer }
    ensures work_after { (way : Way) (tape : List ℕ) → work.new ≡ (recover_call way image.now work.old tape).work }
    ensures tape_value { (way : Way) (tape : List ℕ) → tape ≡ (recover_call way image.now work.old tape).tape }
{
    if !tree_ok(image, root) {
        return Err(Refusal::of(Cause::Unsound));
    }
    codec::copy_all(work, image);
    Ok(Redone {
        bytes: 0,
        flushes: 0,
    })
}

// Recovers an image: work takes the replayed image, tape the commands that make it so, in the device's way.
fn recover_by(way: Way, image: &[u8], work: &mut [u8], tape: &mut [u8]) -> Result<Redone, Refusal>
    ensures value { result ≡ (recover_call way image.now work.old tape.old).answer }
    ensures work_after { work.new ≡ (recover_call way image.now work.old tape.old).work }
    ensures tape_after { tape.new ≡ (recover_call way image.now work.old tape.old).tape }
{
    let n = image.len();
    if !is_image_size(n) {
        return Err(Refusal::of(Cause::ImageSize));
    }
    if work.len() != n {
        return Err(Refusal::of(Cause::WorkSize));
    }
    match page_zero(image) {
        PageZero::Wrong => Err(Refusal::of(Cause::Unsound)),
        PageZero::Ready { root } => keep(image, work, root),
        PageZero::Waiting { headers, root } => redo_log(way, image, work, tape, headers, root),
    }
}

// Recovery on modules with line stores.
pub fn recover(image: &[u8], work: &mut [u8], tape: &mut [u8]) -> Result<Redone, Refusal>
    ensures value { result ≡ (recover_call ByLine image.now work.old tape.old).answer }
    ensures work_after { work.new ≡ (recover_call ByLine image.now work.old tape.old).work }
    ensures tape_after { tape.new ≡ (recover_call ByLine image.now work.old tape.old).tape }
{
    recover_by(Way::ByLine, image, work, tape)
}

// The same on modules "atomic for 8 bytes only": its tape has no line store (document 02 (d)).
pub fn recover_words(image: &[u8], work: &mut [u8], tape: &mut [u8]) -> Result<Redone, Refusal>
    ensures value { result ≡ (recover_call ByWords image.now work.old tape.old).answer }
    ensures work_after { work.new ≡ (recover_call ByWords image.now work.old tape.old).work }
    ensures tape_after { tape.new ≡ (recover_call ByWords image.now work.old tape.old).tape }
{
    recover_by(Way::ByWords, image, work, tape)
}
