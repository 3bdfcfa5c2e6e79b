// The edits of a transaction, made in place on the tree of a work image.
#![tactic(auto)]

pub mod edits;
pub mod ends;
pub mod pages;
pub mod split;
pub mod turns;

// The tree under edit: its root page, and the number below which new pages are looked for.
// That top is at most 64 stays a clause, and no ghost field: the definitions name trees of any top (`CanAbsorb`, `state_of`), and would have to show it.
#[derive(Clone, Copy)]
pub struct Tree {
    pub root: usize,
    pub top: usize,
}

// A page on the way down: its slot in the page above, where its range of keys starts, and its number.
#[derive(Clone, Copy)]
pub struct Child {
    pub slot: usize,
    pub low: u64,
    pub page: usize,
}

// The way from a root of this height to a leaf: the index page above the leaf, which is the root itself or one that a top page names, and the leaf.
#[derive(Clone, Copy)]
pub struct Way {
    pub height: usize,
    pub index: Child,
    pub leaf: Child,
}

// A record put into a page: as the at-th, or in place of the at-th. Its value is lent beside it.
#[derive(Clone, Copy)]
pub struct Put {
    pub ins: bool,
    pub at: usize,
    pub key: u64,
}

// What stands for a page once an edit under it is made: the page itself, nothing, one new page, or two, the right one from sep on; each with
// the number below which new pages are then looked for.
#[derive(Clone, Copy)]
pub enum Turned {
    Kept {
        top: usize,
    },
    Gone {
        top: usize,
    },
    One {
        page: usize,
        top: usize,
    },
    Two {
        left: usize,
        sep: u64,
        right: usize,
        top: usize,
    },
}
