// The image: page 0, the index and its leaves, and the calls that read them.
#![tactic(auto)]

pub mod calls;
pub mod descent;
pub mod format;
pub mod node;
pub mod page_zero;
pub mod pages;
pub mod tree;

// What page 0 says. Three answers, which recovery tells apart: a wrong one is refused, and both of the others name a root.
#[derive(Clone, Copy)]
pub enum PageZero {
    // Line 0 departs from its layout, or the root is no page.
    Wrong,
    // A well-formed mark waits, with its number of logged headers and its new root.
    Waiting { headers: usize, root: usize },
    // The mark is 0.
    Ready { root: usize },
}

// A page on the way down from the root, and the range of the keys that belong to it.
#[derive(Clone, Copy)]
pub struct Place {
    pub page: usize,
    pub from: u64,
    pub below: u64,
}

// The leaf that a way from the root comes to, and whether each page on the way names one page alone.
#[derive(Clone, Copy)]
pub struct LeafPlace {
    pub only: bool,
    pub place: Place,
}

// The leaves of an image, in order: their pages, as many as `count`.
#[derive(Clone, Copy)]
pub struct Leaves {
    pub pages: [u8; 64],
    pub count: usize,
}

// A part of a lent slice: the offset of its first byte, and its length.
#[derive(Clone, Copy, Debug, PartialEq, Eq)]
pub struct Part {
    pub offset: usize,
    pub length: usize,
}
