// What is seen of a key after a list of edits.
ghost use Rattle.std.specs.Prelude.{◌≡◌, ℕ, List, Ok, Some, None, eqb};
ghost use Rattle.codec.specs.Lists.{pick};
ghost use Rattle.image.specs.Calls.{leaf_lookup};
ghost use Rattle.image.specs.Marks.{Marked, IsMarked};
ghost use Rattle.edit.specs.EditList.{listed, edits_of, edit_list};
ghost use Rattle.preview.specs.Calls.{seen};

use crate::Preview;
use device::Refusal;
use image::Part;
use image::descent::Indexed;

// What an edit of this kind makes of its key, if its value stands in the list at `offset`.
fn brought(kind: u8, offset: usize, length: usize) -> Option<Preview>
    ensures { result ≡ pick (eqb kind 3) None (Some (Preview.InList (record { offset = offset; length = length }))) }
{
    match kind {
        3 => None,
        _ => Some(Preview::InList(Part { offset, length })),
    }
}

// What is seen of a key after a well-formed list: what the last edit of the key brings; the leaf of the key is read only if no edit has the key.
pub(crate) fn see(
    index: &Indexed<'_>,
    marks: &mut [u8],
    list: &[u8],
    key: u64,
) -> Result<Option<Preview>, Refusal>
    requires { (edit_list list.now ≡ listed (edits_of (edit_list list.now))) × IsMarked index.now.image.now index.now.root marks.now }
    ensures { (nodes : List ℕ) → Marked index.now.image.now index.now.root nodes marks.old → result ≡ seen (leaf_lookup index.now.image.now index.now.root nodes key) key (edits_of (edit_list list.now)) }
{
    let mut last = None;
    let mut at = 0;
    // A walk from place to place: edits differ in size, so `at` is no index.
    while at < list.len() {
        let value = at + 10;
        let n = codec::wide(list[at + 1]);
        if codec::long_at(list, at + 2) == key {
            last = Some(brought(list[at], value, n));
        }
        at = value + n;
    }
    match last {
        Some(answer) => Ok(answer),
        None => Ok(index.find_key(marks, key)?.map(Preview::InImage)),
    }
}
