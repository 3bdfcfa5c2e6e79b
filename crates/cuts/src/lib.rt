// All cuts of a small tape: their number, and each by its number. Both go by products of the lines' choices; no list is made.
#![tactic(auto)]

ghost use Rattle.std.specs.Prelude.{◌≡◌, true, [], ℕ, ◌+◌, ◌*◌, ◌≤◌, ◌<◌, length, drop, get_or, set};
ghost use Rattle.codec.specs.Lists.{pick};
ghost use Rattle.device.specs.Tape.{is_command, front, decode, well_formed};
ghost use Rattle.cuts.specs.All.{choices_up_to};
ghost use Rattle.cuts.specs.Products.{Describes, pending_after, unflushed_after, LineIn, cuts_over, ways, Names, Highest, Sought};
ghost use Rattle.cuts.specs.Calls.{small_tape, count_call, nth_of, with_cut, nth_call};

use device::{Cause, Refusal};

// What a command does: a barrier waits for the flushes before it.
#[derive(Clone, Copy)]
pub enum Does {
    Stores,
    Flushes,
    Waits,
}

// A command: what it does, the line that it stores to or flushes, which is 0 for a barrier, and its bytes on the tape.
#[derive(Clone, Copy)]
pub struct Command {
    pub does: Does,
    pub line: usize,
    pub size: usize,
}

// Where a cut stands: its count of commands, and its number among the cuts of that count.
#[derive(Clone, Copy)]
pub struct Place {
    pub commands: usize,
    pub rest: usize,
}

// The number of the tape's commands, at most 12.
fn small_tape(image: &[u8], tape: &[u8]) -> Result<usize, Refusal>
    ensures { result ≡ small_tape image.now tape.now }
{
    let n = image.len();
    if !device::is_image_size(n) {
        return Err(Refusal::of(Cause::ImageSize));
    }
    let Some(count) = device::count_commands(tape, n) else {
        return Err(Refusal::of(Cause::BadTape));
    };
    if 12 < count {
        return Err(Refusal::of(Cause::LongTape));
    }
    Ok(count)
}

// The command at `at` of the tape.
fn command_at(tape: &[u8], at: usize) -> Command
    requires { at + 4 ≤ length tape.now }
    ensures { (n : ℕ) → is_command n (drop at tape.now) ≡ true → Describes (front n (drop at tape.now)) result }
{
    let kind = tape[at];
    let place = codec::number_at(tape, at + 2);
    if kind == 1 {
        return Command {
            does: Does::Stores,
            line: place / 8,
            size: 12,
        };
    }
    if kind == 2 {
        return Command {
            does: Does::Stores,
            line: place,
            size: 68,
        };
    }
    if kind == 3 {
        return Command {
            does: Does::Flushes,
            line: place,
            size: 4,
        };
    }
    Command {
        does: Does::Waits,
        line: 0,
        size: 4,
    }
}

// Counts one more store of a line, or none of it any more. In the product over all lines its new factor takes the place of the old.
// Counts and product stay two parameters: a struct that lends the counts needs a clause about its reference in each method, and is no plainer.
fn tally(counts: &mut [u8], product: usize, line: usize, stores: bool) -> usize
    requires line_in_bounds { (line < length counts.old) × (get_or counts.old line 0 ≤ 12) }
    requires product_value { (product ≡ ways counts.old) × (product ≤ 4096) }
    ensures value { result ≡ ways counts.new }
    ensures counts_after { counts.new ≡ set counts.old line (pick stores (get_or counts.old line 0 + 1) 0) }
{
    let old = counts[line];
    let factor = codec::wide(old) + 1;
    let others = product / factor;
    if stores {
        counts[line] = old + 1;
        return others * (factor + 1);
    }
    counts[line] = 0;
    others
}

// Counts the lines' pending stores after one more command, and their product: a flush makes none of them durable, and a barrier all that were
// flushed. `later` is the product of those that were not.
fn count_pending(
    pending: &mut [u8],
    unflushed: &[u8],
    product: usize,
    later: usize,
    does: Does,
    line: usize,
) -> usize
    requires line_in { LineIn does line (length pending.old) × (length unflushed.now ≡ length pending.old) × (length pending.old ≤ 1024) × (get_or pending.old line 0 ≤ 12) }
    requires product_value { (product ≡ ways pending.old) × (later ≡ ways unflushed.now) × (product ≤ 4096) }
    ensures value { result ≡ ways pending.new }
    ensures pending_after { pending.new ≡ pending_after does line pending.old unflushed.now }
{
    match does {
        Does::Stores => tally(pending, product, line, true),
        Does::Flushes => product,
        Does::Waits => {
            codec::copy_all(pending, unflushed);
            later
        }
    }
}

// Counts those that no flush has come after, and their product.
fn count_unflushed(unflushed: &mut [u8], later: usize, does: Does, line: usize) -> usize
    requires line_in { LineIn does line (length unflushed.old) × (get_or unflushed.old line 0 ≤ 12) }
    requires later_value { (later ≡ ways unflushed.old) × (later ≤ 4096) }
    ensures value { result ≡ ways unflushed.new }
    ensures unflushed_after { unflushed.new ≡ unflushed_after does line unflushed.old }
{
    match does {
        Does::Stores => tally(unflushed, later, line, true),
        Does::Flushes => tally(unflushed, later, line, false),
        Does::Waits => later,
    }
}

// Where cut number r stands: past the cuts after 0 commands, after 1, and so on, as long as enough are left; past them all, one command further than
// there are. Leaves each line's pending stores there, and the line of each command. `unflushed` is room for its own counts.
fn seek(
    pending: &mut [u8],
    unflushed: &mut [u8],
    named: &mut [usize],
    tape: &[u8],
    r: usize,
) -> Place
    requires by_index { ((l : ℕ) → get_or pending.old l 0 ≡ 0) × ((l : ℕ) → get_or unflushed.old l 0 ≡ 0) × (length unflushed.old ≡ length pending.old) × (length pending.old ≤ 1024) × (length named.old ≡ 12) }
    requires tape_value { (well_formed (decode (64 * length pending.old) tape.now) ≡ true) × (length (decode (64 * length pending.old) tape.now) ≤ 12) }
    ensures { Sought (length pending.old) (decode (64 * length pending.old) tape.now) r result pending.new named.new }
{
    let mut at = 0;
    let mut commands = 0;
    let mut rest = r;
    let mut product = 1;
    let mut later = 1;
    // A walk from place to place: commands differ in size, and it ends where too few cuts are left.
    while product <= rest {
        rest = rest - product;
        if at == tape.len() {
            return Place {
                commands: commands + 1,
                rest,
            };
        }
        let next = command_at(tape, at);
        let does = next.does;
        let line = next.line;
        named[commands] = line;
        product = count_pending(pending, unflushed, product, later, does, line);
        later = count_unflushed(unflushed, later, does, line);
        at = at + next.size;
        commands = commands + 1;
    }
    Place { commands, rest }
}

// The highest named line below the bound, if there is one.
fn line_below(named: &[usize], bound: usize) -> Option<usize>
    ensures { Highest named.now bound result }
{
    named.iter().copied().filter(|line| *line < bound).max()
}

// Writes choice number r of all choices for lines with so many pending stores: the last line's first, which changes fastest. The walk goes from a
// named line to the next one below it, and counts no index.
fn put_choices(choices: &mut [u8], pending: &[u8], named: &[usize], r: usize)
    requires { (length choices.old ≡ length pending.now) × (r < ways pending.now) × Names named.now pending.now }
    ensures { choices.new ≡ get_or (choices_up_to pending.now) r [] }
{
    choices.fill(0);
    let mut left = r;
    let mut bound = choices.len();
    while let Some(line) = line_below(named, bound) {
        let factor = codec::wide(pending[line]) + 1;
        choices[line] = (left % factor) as u8;
        left = left / factor;
        bound = line;
    }
}

// The number of cuts of a small tape over an image of so many lines. No small tape has a cut number 8,191, so the search for it passes all cuts, and
// what it took off on the way is their number.
fn number_of_cuts(tape: &[u8], lines: usize) -> usize
    requires lines_bound { lines ≤ 1024 }
    requires tape_value { (well_formed (decode (64 * lines) tape.now) ≡ true) × (length (decode (64 * lines) tape.now) ≤ 12) }
    ensures { result ≡ length (cuts_over lines tape.now) }
{
    let mut pending = [0u8; 1024];
    let mut unflushed = [0u8; 1024];
    let mut named = [0usize; 12];
    let end = seek(
        &mut pending[..lines],
        &mut unflushed[..lines],
        &mut named,
        tape,
        8191,
    );
    8191 - end.rest
}

// The number of cuts of a tape of at most 12 commands on an image.
pub fn count_cuts(image: &[u8], tape: &[u8]) -> Result<usize, Refusal>
    ensures { result ≡ count_call image.now tape.now }
{
    small_tape(image, tape)?;
    Ok(number_of_cuts(tape, image.len() / 64))
}

// Cut number r of a small tape of `count` commands, if there is one.
fn find_cut(choices: &mut [u8], tape: &[u8], r: usize, count: usize) -> Result<usize, Refusal>
    requires choices_len_bound { length choices.old ≤ 1024 }
    requires tape_value { (well_formed (decode (64 * length choices.old) tape.now) ≡ true) × (length (decode (64 * length choices.old) tape.now) ≡ count) × (count ≤ 12) }
    ensures value { result ≡ nth_of (cuts_over (length choices.old) tape.now) r }
    ensures choices_after { choices.new ≡ (with_cut (cuts_over (length choices.old) tape.now) r choices.old result).choices }
{
    let lines = choices.len();
    let mut pending = [0u8; 1024];
    let mut unflushed = [0u8; 1024];
    let mut named = [0usize; 12];
    let place = seek(
        &mut pending[..lines],
        &mut unflushed[..lines],
        &mut named,
        tape,
        r,
    );
    let commands = place.commands;
    if count < commands {
        return Err(Refusal::of(Cause::NoSuchCut));
    }
    put_choices(choices, &pending[..lines], &named[..commands], place.rest);
    Ok(commands)
}

// Cut number r of a tape of at most 12 commands on an image, from 0: its count of commands, and its choice bytes in `choices`.
pub fn nth_cut(image: &[u8], tape: &[u8], r: usize, choices: &mut [u8]) -> Result<usize, Refusal>
    ensures value { result ≡ (nth_call image.now tape.now r choices.old).answer }
    ensures choices_after { choices.new ≡ (nth_call image.now tape.now r choices.old).choices }
{
    let count = small_tape(image, tape)?;
    if choices.len() != image.len() / 64 {
        return Err(Refusal::of(Cause::BadChoices));
    }
    find_cut(choices, tape, r, count)
}
