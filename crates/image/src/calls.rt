// The calls: format, check, lookup with its companion, and next key.
ghost use Rattle.std.specs.Prelude.{◌≡◌, ℕ, true, replicate, Ok, Err, MatchResult};
ghost use Rattle.image.specs.Descent.{root_read};
ghost use Rattle.image.specs.Marks.{Marked};
ghost use Rattle.image.specs.Calls.{format_call, root_call, index_call, check_call, ranged, lookup_call, value_call, next_call};

use crate::descent::Indexed;
use crate::format::put_fresh;
use crate::node::index_ok;
use crate::page_zero::page_zero;
use crate::pages::TOP_KEY;
use crate::tree::tree_ok;
use crate::{PageZero, Part};
use device::{Cause, Refusal, is_image_size};

// Writes a fresh store.
pub fn format(image: &mut [u8]) -> Result<(), Refusal>
    ensures value { result ≡ (format_call image.old).answer }
    ensures image_after { image.new ≡ (format_call image.old).image }
{
    if !is_image_size(image.len()) {
        return Err(Refusal::of(Cause::ImageSize));
    }
    put_fresh(image);
    Ok(())
}

// The root, by page 0.
pub fn root_in(image: &[u8]) -> Result<usize, Refusal>
    ensures { result ≡ root_call image.now }
{
    if !is_image_size(image.len()) {
        return Err(Refusal::of(Cause::ImageSize));
    }
    match page_zero(image) {
        PageZero::Wrong => Err(Refusal::of(Cause::Unsound)),
        PageZero::Waiting { .. } => Err(Refusal::of(Cause::MarkWaits)),
        PageZero::Ready { root } => Ok(root),
    }
}

// The image with its root, by page 0 and the root page: what every reading call reads first. The marks stand for what is read then.
pub fn index_in<'a>(image: &'a [u8], marks: &mut [u8]) -> Result<Indexed<'a>, Refusal>
    requires { marks.now ≡ replicate 64 0 }
    ensures value { MatchResult result (λ x. (x.image.now ≡ image.now) × (index_call image.now ≡ Ok x.root)) (λ e. index_call image.now ≡ Err e) }
    ensures marks_after { (root : ℕ) → index_call image.now ≡ Ok root → Marked image.now root (root_read root) marks.new }
{
    let root = root_in(image)?;
    if !index_ok(image, root, marks) {
        return Err(Refusal::of(Cause::Unsound));
    }
    Ok(Indexed { image, root })
}

// Whether an image is sound.
pub fn check(image: &[u8]) -> Result<(), Refusal>
    ensures { result ≡ check_call image.now }
{
    let root = root_in(image)?;
    if !tree_ok(image, root) {
        return Err(Refusal::of(Cause::Unsound));
    }
    Ok(())
}

// What a leaf answers, unless the key is out of range.
fn ranged(key: u64, found: Option<Part>) -> Result<Option<Part>, Refusal>
    ensures { result ≡ ranged key (Ok found) }
{
    if key < 1 {
        return Err(Refusal::of(Cause::KeyRange));
    }
    if TOP_KEY < key {
        return Err(Refusal::of(Cause::KeyRange));
    }
    Ok(found)
}

// Where the value of a key stands in the image, or that the key is missing.
pub fn lookup(image: &[u8], key: u64) -> Result<Option<Part>, Refusal>
    ensures { result ≡ lookup_call image.now key }
{
    let mut marks = [0u8; 64];
    let found = index_in(image, &mut marks)?.find_key(&mut marks, key)?;
    ranged(key, found)
}

// The value of a key, as a part of the image; empty if refused or missing.
pub fn value(image: &[u8], key: u64) -> &[u8]
    ensures { result.now ≡ value_call image.now key }
{
    match lookup(image, key) {
        Ok(Some(part)) => {
            let end = part.offset + part.length;
            &image[part.offset..end]
        }
        Ok(None) => &image[..0],
        Err(_) => &image[..0],
    }
}

// The smallest key above a number, or that there is none.
pub fn next_key(image: &[u8], key: u64) -> Result<Option<u64>, Refusal>
    ensures { result ≡ next_call image.now key }
{
    let mut marks = [0u8; 64];
    index_in(image, &mut marks)?.next_above(&mut marks, key)
}
