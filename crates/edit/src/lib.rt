// The edit list: its first fault, judged before any edit is made.
#![tactic(auto)]

ghost use Rattle.std.specs.Prelude.{◌≡◌, ◌&&◌, ◌||◌, ◌≤◌, eqb, ltb, length, drop};
ghost use Rattle.codec.specs.Lists.{pick};
ghost use Rattle.image.specs.Calls.{key_ok};
ghost use Rattle.edit.specs.EditList.{fault_in, edit_list};
ghost use Rattle.edit.specs.Judged.{cause_named, judged_of};

use device::{Cause, Refusal};

// Whether the kind is unknown, or a delete has a length. The kind is the list's byte, which may be any.
fn bad_head(kind: u8, n: usize) -> bool
    ensures { result ≡ ((ltb kind 1 || ltb 3 kind) || (eqb kind 3 && ltb 0 n)) }
{
    match kind {
        1 => false,
        2 => false,
        3 => 0 < n,
        _ => true,
    }
}

// Whether an insert or update, by its kind, brings an empty value: "19 .. for an insert or update of length 0".
fn is_empty(kind: u8, n: usize) -> bool
    ensures { result ≡ (ltb kind 3 && eqb n 0) }
{
    kind < 3 && n == 0
}

// The fault of a key, if it has one.
fn key_fault(key: u64) -> Option<Cause>
    ensures { result ≡ cause_named (pick (key_ok key) 0 6) }
{
    if key < 1 {
        return Some(Cause::KeyRange);
    }
    if 999999999999 < key {
        return Some(Cause::KeyRange);
    }
    None
}

// Why the edit at `at` refuses the list, if it does.
pub fn fault_at(list: &[u8], at: usize) -> Option<Cause>
    requires { at ≤ length list.now }
    ensures { result ≡ cause_named (fault_in (drop at list.now)) }
{
    let left = list.len() - at;
    if left < 10 {
        return Some(Cause::BadList);
    }
    let n = codec::wide(list[at + 1]);
    if bad_head(list[at], n) {
        return Some(Cause::BadList);
    }
    let whole = 10 + n;
    if 200 < n {
        return Some(Cause::LongValue);
    }
    if is_empty(list[at], n) {
        return Some(Cause::EmptyValue);
    }
    if left < whole {
        return Some(Cause::BadList);
    }
    key_fault(codec::long_at(list, at + 2))
}

// Judges the whole list, edit by edit; any byte after sixteen good edits is a seventeenth.
pub fn judge(list: &[u8]) -> Result<(), Refusal>
    ensures { result ≡ judged_of (edit_list list.now) }
{
    if list.len() == 0 {
        return Err(Refusal::of(Cause::BadList));
    }
    let mut at = 0;
    let mut edit: u8 = 0;
    // A walk from place to place: edits differ in size, so `at` is no index.
    while at < list.len() {
        if 15 < edit {
            return Err(Refusal {
                cause: Cause::BadList,
                edit,
            });
        }
        if let Some(cause) = fault_at(list, at) {
            return Err(Refusal { cause, edit });
        }
        at = at + 10 + codec::wide(list[at + 1]);
        edit = edit + 1;
    }
    Ok(())
}
