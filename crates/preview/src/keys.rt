// The key rules of a list: "8 insert of a key present; 9 other edit of a missing key", each edit seeing those before it and the one leaf that its
// key belongs to.
ghost use Rattle.std.specs.Prelude.{◌≡◌, true, Ok, None, map, eqb};
ghost use Rattle.page.specs.Page.{records, keys_rise};
ghost use Rattle.image.specs.Descent.{root_read, nodes_after, records_for};
ghost use Rattle.image.specs.Marks.{Marked};
ghost use Rattle.edit.specs.EditList.{key_of, listed, edits_of, edit_list};
ghost use Rattle.edit.specs.Keys.{holds, keys_from};
ghost use Rattle.preview.specs.Noted.{kind_noted, fault_by, AreMarks, Looked};

use device::{Cause, Refusal};
use image::descent::Indexed;
use image::node::leaf_ok;
use image::pages::laid_page;
use page::laid::Page;

// An edit that is judged: its key and its kind, the list's byte (`kind_noted` is promised for any).
#[derive(Clone, Copy)]
struct Noted {
    key: u64,
    kind: u8,
}

// The kind of the last edit of a key among those that are noted.
fn kind_noted(noted: &[Noted], key: u64) -> Option<u8>
    ensures { result ≡ kind_noted noted.now key }
{
    noted
        .iter()
        .rev()
        .find(|edit| edit.key == key)
        .map(|edit| edit.kind)
}

// Whether a sound page holds a key.
fn in_page(page: Page, key: u64) -> bool
    requires { keys_rise (records page.bytes.now) ≡ true }
    ensures { result ≡ holds key (records page.entry.bytes.now) }
{
    page.find(key).is_ok()
}

// Whether the image holds a key, by the leaf that its way comes to. A leaf that is found sound is marked by its page, and not judged again.
fn in_leaf(
    index: &Indexed<'_>,
    marks: &mut [u8],
    judged: &mut [u8],
    key: u64,
) -> Result<bool, Refusal>
    requires { AreMarks index.now.image.now index.now.root marks.old judged.old }
    ensures { Looked index.now.image.now index.now.root key None marks.old judged.old result marks.new judged.new }
{
    let Some(leaf) = index.way_to(marks, key) else {
        return Err(Refusal::of(Cause::Unsound));
    };
    let own = leaf.place.page;
    if judged[own] != 0 {
        return Ok(in_page(laid_page(index.image, own), key));
    }
    if !leaf_ok(
        index.image,
        leaf.only,
        leaf.place.from,
        leaf.place.below,
        own,
    ) {
        return Err(Refusal::of(Cause::Unsound));
    }
    judged[own] = 1;
    Ok(in_page(laid_page(index.image, own), key))
}

// Whether a key is there after the edits that are noted: as the last of them that has it leaves it, else as the image has it.
fn is_there(
    index: &Indexed<'_>,
    marks: &mut [u8],
    judged: &mut [u8],
    noted: &[Noted],
    key: u64,
) -> Result<bool, Refusal>
    requires { AreMarks index.now.image.now index.now.root marks.old judged.old }
    ensures { Looked index.now.image.now index.now.root key (kind_noted noted.now key) marks.old judged.old result marks.new judged.new }
{
    match kind_noted(noted, key) {
        None => in_leaf(index, marks, judged, key),
        Some(3) => Ok(false),
        Some(_) => Ok(true),
    }
}

// What is said of edit n, of this kind, where `there` says whether its key is there.
fn key_fault(n: u8, kind: u8, there: bool) -> Result<(), Refusal>
    ensures { result ≡ fault_by n (eqb kind 1) (Ok there) }
{
    if there {
        if kind == 1 {
            return Err(Refusal {
                cause: Cause::KeyPresent,
                edit: n,
            });
        }
        return Ok(());
    }
    if kind == 1 {
        return Ok(());
    }
    Err(Refusal {
        cause: Cause::KeyMissing,
        edit: n,
    })
}

// Judges the keys of a well-formed list, edit by edit. Key and kind of each are noted, so that the edits after it need not read the list again.
pub(crate) fn judge_keys(index: &Indexed<'_>, marks: &mut [u8], list: &[u8]) -> Result<(), Refusal>
    requires { (edit_list list.now ≡ listed (edits_of (edit_list list.now))) × Marked index.now.image.now index.now.root (root_read index.now.root) marks.old }
    ensures value { result ≡ keys_from 0 (edits_of (edit_list list.now)) (records_for index.now.image.now index.now.root) }
    ensures marks_after { result ≡ Ok tt → Marked index.now.image.now index.now.root (nodes_after index.now.image.now index.now.root (root_read index.now.root) (map key_of (edits_of (edit_list list.now)))) marks.new }
{
    let mut noted = [Noted { key: 0, kind: 0 }; 16];
    let mut judged = [0u8; 64];
    let mut n = 0;
    let mut at = 0;
    // A walk from place to place: edits differ in size, so `at` is no index.
    while at < list.len() {
        let kind = list[at];
        let key = codec::long_at(list, at + 2);
        let there = is_there(index, marks, &mut judged, &noted[..n], key)?;
        key_fault(n as u8, kind, there)?;
        noted[n] = Noted { key, kind };
        n += 1;
        at = at + 10 + codec::wide(list[at + 1]);
    }
    Ok(())
}
