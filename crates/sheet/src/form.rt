// The lines of the form, from the first to the last or to the first bad one: edits wait until they are committed.
ghost use Rattle.std.specs.Prelude.{◌≡◌, ◌≤◌, length};
ghost use Rattle.codec.specs.Lists.{pick};
ghost use Rattle.transaction.specs.Calls.{is_accepted};
ghost use Rattle.sheet.specs.Steps.{tried, commits, steps, state_of};

use crate::waiting::Waiting;
use lines::Line;

// "or line 2,001": so many lines are taken.
const MOST_LINES: usize = 2000;

// The transactions accepted and refused.
#[derive(Clone, Copy, Default)]
pub struct Totals {
    pub accepted: u64,
    pub refused: u64,
}

// The number of the first bad line.
#[derive(Clone, Copy)]
pub struct BadLine(pub u64);

// Runs a transaction on the image, and answers whether it was accepted: work is then the image after its tape.
fn transact(image: &mut [u8], edits: &[u8]) -> bool
    requires { length image.old ≡ 8192 }
    ensures value { result ≡ is_accepted (tried image.old edits.now).answer }
    ensures image_after { image.new ≡ pick result (tried image.old edits.now).work image.old }
{
    let mut work = [0u8; 8192];
    let mut tape = [0u8; 16384];
    match transaction::transaction(image, &mut work, &mut tape, edits) {
        Ok(_) => {
            codec::copy_all(image, &work);
            true
        }
        Err(_) => false,
    }
}

// Commits the edits that wait; none wait afterwards.
fn commit(image: &mut [u8], waiting: &mut Waiting, totals: &mut Totals)
    requires { (length image.old ≡ 8192) × (totals.old.accepted ≤ 2000) × (totals.old.refused ≤ 2000) }
    ensures { state_of image.new waiting.new totals.new ≡ commits (state_of image.old waiting.old totals.old) }
{
    let accepted = transact(image, waiting.list());
    *waiting = Waiting::new();
    if accepted {
        totals.accepted += 1;
    } else {
        totals.refused += 1;
    }
}

// Takes the lines in order. "At a bad line (not of this form), or line 2,001": its number.
pub fn take_lines(input: &[u8], image: &mut [u8]) -> Result<Totals, BadLine>
    requires { length image.old ≡ 8192 }
    ensures value { result ≡ (steps input.now image.old).end }
    ensures image_after { image.new ≡ (steps input.now image.old).image }
{
    let mut waiting = Waiting::new();
    let mut totals = Totals::default();
    for (done, line) in input.chunks(28).enumerate() {
        let bad = BadLine(done as u64 + 1);
        if MOST_LINES <= done {
            return Err(bad);
        }
        match lines::read_line(line, 0).ok_or(bad)? {
            Line::Commit => commit(image, &mut waiting, &mut totals),
            Line::Edit { kind, key, price } => waiting.wait(kind, key, price),
        }
    }
    Ok(totals)
}
