// The journal: how an edited image is committed, and a waiting log replayed. Its definitions and laws are in specs/ and proofs/; the code
// that writes the tapes is in tape_write.
#![tactic(auto)]

// The two ways to write a line: by one line store, or by eight word stores for modules without line stores (document 02 (d)).
#[derive(Clone, Copy)]
pub enum Way {
    ByLine,
    ByWords,
}

// Where a transaction commits: "a header, the root word or the log".
#[derive(Clone, Copy)]
pub enum CommitPlace {
    Header(usize),
    Root,
    Log,
}

// An accepted transaction: its commit place, the tape bytes used, and the number of flush commands on the tape.
#[derive(Clone, Copy)]
pub struct Commit {
    pub place: CommitPlace,
    pub bytes: usize,
    pub flushes: usize,
}

// An accepted recovery: the tape bytes used, and the number of flush commands on the tape.
#[derive(Clone, Copy)]
pub struct Redone {
    pub bytes: usize,
    pub flushes: usize,
}
