// The preview: what a lookup would find if an edit list had been committed. It reads the image and the list, and nothing else: pages, log and
// tape play no part.
#![tactic(auto)]

use image::Part;

pub mod calls;
pub mod keys;
pub mod seen;

// The value that a preview shows: a part of one of the two lent slices.
#[derive(Clone, Copy, Debug, PartialEq, Eq)]
pub enum Preview {
    InList(Part),
    InImage(Part),
}
