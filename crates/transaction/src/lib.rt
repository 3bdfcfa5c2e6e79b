// The transaction: a list of edits made on an image, with the tape that commits them. Its definition is in specs/, what it answers in
// proofs/Answers; the code that makes the edits is in tree_edit, and the code that writes the tape in tape_write.
#![tactic(auto)]

ghost use Rattle.std.specs.Prelude.{◌≡◌, true, length};
ghost use Rattle.image.specs.Image.{sound};
ghost use Rattle.edit.specs.EditList.{listed, edits_of, edit_list};
ghost use Rattle.journal.specs.Edited.{Edited};
ghost use Rattle.journal.specs.declared.Way.TheVariants.{ByLine, ByWords};
ghost use Rattle.tape_write.specs.Calls.{Marks, reached_in};
ghost use Rattle.tree.specs.Whole.{edits_on};
ghost use Rattle.transaction.specs.Calls.{committed, outcome_of, list_of, transaction_call};

use device::{Cause, Refusal, is_image_size};
use edit::judge;
use image::calls::check;
use image::descent::root_of;
use journal::{Commit, Way};
use tape_write::commit;
use tree_edit::Tree;
use tree_edit::edits::edit_list;
use tree_edit::ends::{finish, marks_of};

// Commits the edited image that work holds, or puts the image back into work. The pages that image reaches are marked.
fn commit_edits(
    way: Way,
    image: &[u8],
    work: &mut [u8],
    tape: &mut [u8],
    before: &[u8; 64],
) -> Result<Commit, Refusal>
    requires { (sound image.now ≡ true) × Edited image.now work.old × Marks before.now (reached_in image.now) }
    ensures value { result ≡ (committed way image.now work.old tape.old).answer }
    ensures work_after { work.new ≡ (committed way image.now work.old tape.old).work }
    ensures tape_after { tape.new ≡ (committed way image.now work.old tape.old).tape }
{
    let after = marks_of(work, root_of(work));
    match commit(way, image, work, tape, before, &after) {
        Ok(done) => Ok(done),
        Err(cause) => {
            codec::copy_all(work, image);
            Err(Refusal::of(cause))
        }
    }
}

// Makes the edits of a well-formed list on a copy of a sound image, and commits them.
fn make_edits(
    way: Way,
    image: &[u8],
    work: &mut [u8],
    tape: &mut [u8],
    list: &[u8],
) -> Result<Commit, Refusal>
    requires { (sound image.now ≡ true) × (length work.old ≡ length image.now) × (edit_list list.now ≡ listed (edits_of (edit_list list.now))) }
    ensures value { result ≡ (outcome_of way image.now tape.old (edits_on image.now (edits_of (edit_list list.now)))).answer }
    ensures work_after { work.new ≡ (outcome_of way image.now tape.old (edits_on image.now (edits_of (edit_list list.now)))).work }
    ensures tape_after { tape.new ≡ (outcome_of way image.now tape.old (edits_on image.now (edits_of (edit_list list.now)))).tape }
{
    codec::copy_all(work, image);
    let root = root_of(image);
    let before = marks_of(image, root);
    let tree = Tree {
        root,
        top: image.len() / 1024,
    };
    match edit_list(work, &before, tree, list) {
        Err(refusal) => {
            codec::copy_all(work, image);
            Err(refusal)
        }
        Ok(end) => {
            finish(work, image, &before, end);
            commit_edits(way, image, work, tape, &before)
        }
    }
}

// Judges the list, and makes its edits on a sound image.
fn judge_list(
    way: Way,
    image: &[u8],
    work: &mut [u8],
    tape: &mut [u8],
    list: &[u8],
) -> Result<Commit, Refusal>
    requires { (sound image.now ≡ true) × (length work.old ≡ length image.now) }
    ensures value { result ≡ (list_of way image.now work.old tape.old (edit_list list.now)).answer }
    ensures work_after { work.new ≡ (list_of way image.now work.old tape.old (edit_list list.now)).work }
    ensures tape_after { tape.new ≡ (list_of way image.now work.old tape.old (edit_list list.now)).tape }
{
    judge(list)?;
    make_edits(way, image, work, tape, list)
}

// Makes a list of edits on an image: work takes the image after them, tape the commands that commit them, in the device's way.
fn transact(
    way: Way,
    image: &[u8],
    work: &mut [u8],
    tape: &mut [u8],
    edits: &[u8],
) -> Result<Commit, Refusal>
    ensures value { result ≡ (transaction_call way image.now work.old tape.old edits.now).answer }
    ensures work_after { work.new ≡ (transaction_call way image.now work.old tape.old edits.now).work }
    ensures tape_after { tape.new ≡ (transaction_call way image.now work.old tape.old edits.now).tape }
{
    let n = image.len();
    if !is_image_size(n) {
        return Err(Refusal::of(Cause::ImageSize));
    }
    if work.len() != n {
        return Err(Refusal::of(Cause::WorkSize));
    }
    check(image)?;
    judge_list(way, image, work, tape, edits)
}

// The transaction on modules with line stores.
pub fn transaction(
    image: &[u8],
    work: &mut [u8],
    tape: &mut [u8],
    edits: &[u8],
) -> Result<Commit, Refusal>
    ensures value { result ≡ (transaction_call ByLine image.now work.old tape.old edits.now).answer }
    ensures work_after { work.new ≡ (transaction_call ByLine image.now work.old tape.old edits.now).work }
    ensures tape_after { tape.new ≡ (transaction_call ByLine image.now work.old tape.old edits.now).tape }
{
    transact(Way::ByLine, image, work, tape, edits)
}

// The same on modules "atomic for 8 bytes only": its tape has no line store (document 02 (d)).
pub fn transaction_words(
    image: &[u8],
    work: &mut [u8],
    tape: &mut [u8],
    edits: &[u8],
) -> Result<Commit, Refusal>
    ensures value { result ≡ (transaction_call ByWords image.now work.old tape.old edits.now).answer }
    ensures work_after { work.new ≡ (transaction_call ByWords image.now work.old tape.old edits.now).work }
    ensures tape_after { tape.new ≡ (transaction_call ByWords image.now work.old tape.old edits.now).tape }
{
    transact(Way::ByWords, image, work, tape, edits)
}
