// The calls: preview, and its companion that hands back the part itself.
ghost use Rattle.std.specs.Prelude.{◌≡◌};
ghost use Rattle.image.specs.Descent.{root_read, records_for};
ghost use Rattle.image.specs.Marks.{Marked};
ghost use Rattle.edit.specs.EditList.{listed, edits_of, edit_list};
ghost use Rattle.preview.specs.Calls.{stored_after, keys_of, list_of, preview_call, preview_value_call};

use crate::Preview;
use crate::keys::judge_keys;
use crate::seen::see;
use device::{Cause, Refusal};
use edit::judge;
use image::calls::index_in;
use image::descent::Indexed;
use image::pages::TOP_KEY;

// Judges the key that is asked and the keys of a well-formed list, and looks the key up as after the list.
fn look(
    index: &Indexed<'_>,
    marks: &mut [u8],
    edits: &[u8],
    key: u64,
) -> Result<Option<Preview>, Refusal>
    requires { (edit_list edits.now ≡ listed (edits_of (edit_list edits.now))) × Marked index.now.image.now index.now.root (root_read index.now.root) marks.now }
    ensures { result ≡ keys_of (records_for index.now.image.now index.now.root) (stored_after index.now.image.now index.now.root key) key (edits_of (edit_list edits.now)) }
{
    if key < 1 {
        return Err(Refusal::of(Cause::KeyRange));
    }
    if TOP_KEY < key {
        return Err(Refusal::of(Cause::KeyRange));
    }
    judge_keys(index, marks, edits)?;
    see(index, marks, edits, key)
}

// Judges the list, under a sound root page.
fn look_after(
    index: &Indexed<'_>,
    marks: &mut [u8],
    edits: &[u8],
    key: u64,
) -> Result<Option<Preview>, Refusal>
    requires { Marked index.now.image.now index.now.root (root_read index.now.root) marks.now }
    ensures { result ≡ list_of (records_for index.now.image.now index.now.root) (stored_after index.now.image.now index.now.root key) key (edit_list edits.now) }
{
    judge(edits)?;
    look(index, marks, edits, key)
}

// Where the value of a key would stand if the edits had been committed, or that the key would be missing.
pub fn preview(image: &[u8], edits: &[u8], key: u64) -> Result<Option<Preview>, Refusal>
    ensures { result ≡ preview_call image.now edits.now key }
{
    let mut marks = [0u8; 64];
    look_after(&index_in(image, &mut marks)?, &mut marks, edits, key)
}

// The value itself, as a part of the edit list or of the image; empty if refused or missing.
pub fn preview_value<'a>(image: &'a [u8], edits: &'a [u8], key: u64) -> &'a [u8]
    ensures { result.now ≡ preview_value_call image.now edits.now key }
{
    match preview(image, edits, key) {
        Ok(Some(Preview::InList(part))) => {
            let end = part.offset + part.length;
            &edits[part.offset..end]
        }
        Ok(Some(Preview::InImage(part))) => {
            let end = part.offset + part.length;
            &image[part.offset..end]
        }
        Ok(None) => &image[..0],
        Err(_) => &image[..0],
    }
}
