// The device: words, lines, flushes and barriers on a tape, run over an image, whole or cut.
#![tactic(auto)]

ghost use Rattle.std.specs.Prelude.{◌≡◌, true, ◌||◌, ℕ, ◌+◌, ◌-◌, ◌*◌, ◌/◌, ◌≤◌, ◌<◌, eqb, ltb, length, take, drop, get_or, set, IfSome};
ghost use Rattle.codec.specs.Lists.{pick, part, splice};
ghost use Rattle.codec.specs.Numbers.{number};
ghost use Rattle.device.specs.Tape.{decode, front, extent, place_ok, well_formed, head_bytes, word_bytes, line_bytes, flush_bytes, barrier_bytes};
ghost use Rattle.device.specs.Cut.{after, cut_image};
ghost use Rattle.device.specs.Counts.{size_of, sized, scanned, flush_done, note_flush, Tells, Found};
ghost use Rattle.device.specs.Calls.{cause_number, of_cause, is_image_size, run_call, cut_tape, cut_call};

// Why a call is refused; the number beside each is the one by which document 01 names it, and document 02 those past 16.
#[derive(Clone, Copy, Debug, PartialEq, Eq)]
pub enum Cause {
    ImageSize = 1,
    WorkSize = 2,
    MarkWaits = 3,
    Unsound = 4,
    BadList = 5,
    KeyRange = 6,
    LongValue = 7,
    KeyPresent = 8,
    KeyMissing = 9,
    IndexFull = 10,
    PagesOut = 11,
    LogFull = 12,
    TapeShort = 13,
    BadTape = 14,
    PastEnd = 15,
    BadChoices = 16,
    LongTape = 17,
    NoSuchCut = 18,
    EmptyValue = 19,
    KeyInBoth = 20,
}

impl Cause {
    // The number of the refusal.
    pub fn number(self) -> u8
        ensures { result ≡ cause_number self }
    {
        self as u8
    }
}

// A refusal: why, and the number of the edit that it names.
#[derive(Clone, Copy, Debug, PartialEq, Eq)]
pub struct Refusal {
    pub cause: Cause,
    pub edit: u8,
}

impl Refusal {
    // A refusal that names no edit.
    pub fn of(cause: Cause) -> Refusal
        ensures { result ≡ of_cause cause }
    {
        Refusal { cause, edit: 0 }
    }
}

// What a cut's first pass over the tape finds: how many commands there are, and where the last barrier among the first ones ends, unless one is
// malformed.
#[derive(Clone, Copy)]
struct Judged {
    count: usize,
    fence: usize,
}

// The bytes of a command by the two bytes that it starts with, if it is one.
fn size_of(head: usize) -> Option<usize>
    ensures { result ≡ sized (size_of head) }
{
    match head {
        1 => Some(12),
        2 => Some(68),
        3 => Some(4),
        4 => Some(4),
        _ => None,
    }
}

// Whether a command that starts with these two bytes may have this place, over an image of n bytes: a word or a line is not outside, and a
// barrier has place 0.
fn is_place(head: usize, place: usize, n: usize) -> bool
    requires { place < 65536 }
    ensures { result ≡ place_ok n head place }
{
    if head == 4 {
        return place == 0;
    }
    if head == 1 {
        return 8 * place + 8 <= n;
    }
    64 * place + 64 <= n
}

// The bytes of the command at `at` of the tape, over an image of n bytes, if it is one.
fn size_at(tape: &[u8], at: usize, n: usize) -> Option<usize>
    requires { at ≤ length tape.now }
    ensures value { result ≡ sized (extent (front n (drop at tape.now))) }
    ensures inside { IfSome result (λ size. at + size ≤ length tape.now) }
{
    let left = tape.len() - at;
    if left < 4 {
        return None;
    }
    let head = codec::number_at(tape, at);
    let place = codec::number_at(tape, at + 2);
    let size = size_of(head)?;
    if left < size {
        return None;
    }
    if !is_place(head, place, n) {
        return None;
    }
    Some(size)
}

// Judges the whole tape over an image of n bytes and counts its commands.
pub fn count_commands(tape: &[u8], n: usize) -> Option<usize>
    ensures { result ≡ scanned (decode n tape.now) }
{
    let mut at = 0;
    let mut count = 0;
    // A walk from place to place: commands differ in size, so `at` is no index.
    while at < tape.len() {
        let size = size_at(tape, at, n)?;
        at = at + size;
        count = count + 1;
    }
    Some(count)
}

// Makes every store of a well-formed tape.
fn play(work: &mut [u8], tape: &[u8])
    requires { well_formed (decode (length work.old) tape.now) ≡ true }
    ensures { work.new ≡ after work.old (decode (length work.old) tape.now) }
{
    let mut at = 0;
    // A walk from place to place: commands differ in size, so `at` is no index.
    while at < tape.len() {
        let kind = tape[at];
        let place = codec::number_at(tape, at + 2);
        if kind == 1 {
            codec::copy_word(work, 8 * place, tape, at + 4);
            at = at + 12;
        } else if kind == 2 {
            codec::copy_line(work, 64 * place, tape, at + 4);
            at = at + 68;
        } else {
            at = at + 4;
        }
    }
}

// Whether n is the size of an image: 8 to 64 whole pages.
pub fn is_image_size(n: usize) -> bool
    ensures { result ≡ is_image_size n }
{
    if n < 8192 {
        return false;
    }
    if 65536 < n {
        return false;
    }
    n % 1024 == 0
}

// The image after all the tape's stores, in work.
pub fn run(image: &[u8], work: &mut [u8], tape: &[u8]) -> Result<(), Refusal>
    ensures value { result ≡ (run_call image.now work.old tape.now).answer }
    ensures work_after { work.new ≡ (run_call image.now work.old tape.now).work }
{
    let n = image.len();
    if !is_image_size(n) {
        return Err(Refusal::of(Cause::ImageSize));
    }
    if work.len() != n {
        return Err(Refusal::of(Cause::WorkSize));
    }
    let Some(_) = count_commands(tape, n) else {
        return Err(Refusal::of(Cause::BadTape));
    };
    codec::copy_all(work, image);
    play(work, tape);
    Ok(())
}

// Where the line's last flush ends that a barrier comes after, 0 if there is none: its last flush, if the last barrier ends past it, else the one
// that was done when its last flush came. Both stand in one array, each in its half: `flush_done` and `note_flush` of specs/Counts are stated over it.
fn flush_done(flushes: &[usize], fence: usize, line: usize) -> usize
    requires { line < length flushes.now / 2 }
    ensures { result ≡ flush_done flushes.now fence line }
{
    let last = flushes[line];
    if last <= fence {
        return last;
    }
    flushes[flushes.len() / 2 + line]
}

// Notes a flush at `at` of the tape, with the one of its line that is done by then, and answers where the last barrier ends once this command has come.
fn note(flushes: &mut [usize], tape: &[u8], at: usize, fence: usize) -> usize
    requires { (at + 4 ≤ length tape.now) × (get_or tape.now at 0 ≡ 3 → number (part tape.now (at + 2) 2) < length flushes.old / 2) }
    ensures value { result ≡ pick (eqb (get_or tape.now at 0) 4) (at + 4) fence }
    ensures flushes_after { flushes.new ≡ pick (eqb (get_or tape.now at 0) 3) (note_flush flushes.old fence (number (part tape.now (at + 2) 2)) (at + 4)) flushes.old }
{
    let kind = tape[at];
    if kind == 4 {
        return at + 4;
    }
    if kind != 3 {
        return fence;
    }
    let line = codec::number_at(tape, at + 2);
    let half = flushes.len() / 2;
    flushes[half + line] = flush_done(flushes, fence, line);
    flushes[line] = at + 4;
    fence
}

// Judges the whole tape over an image of n bytes and counts its commands, and notes the flushes of the first c: one that no barrier comes after among
// these is not waited for when c commands are done, and so makes nothing durable.
fn judge(flushes: &mut [usize], tape: &[u8], n: usize, c: usize) -> Option<Judged>
    requires { (n ≤ 64 * (length flushes.old / 2)) × ((l : ℕ) → get_or flushes.old l 0 ≡ 0) }
    ensures { Found c (decode n tape.now) flushes.new result }
{
    let mut at = 0;
    let mut count = 0;
    let mut fence = 0;
    // A walk from place to place: commands differ in size, so `at` is no index.
    while at < tape.len() {
        let size = size_at(tape, at, n)?;
        if count < c {
            fence = note(flushes, tape, at, fence);
        }
        at = at + size;
        count = count + 1;
    }
    Some(Judged { count, fence })
}

// Whether a store at `at` of the tape is kept: the line's last flush that is done ends later, so that it is durable, or its choice is not used up,
// which counts one less.
fn is_kept(flushes: &[usize], left: &mut [u8], fence: usize, at: usize, line: usize) -> bool
    requires { (line < length flushes.now / 2) × (line < length left.old) }
    ensures value { result ≡ (ltb at (flush_done flushes.now fence line) || ltb 0 (get_or left.old line 0)) }
    ensures left_after { left.new ≡ pick (ltb at (flush_done flushes.now fence line)) left.old (set left.old line (get_or left.old line 0 - 1)) }
{
    if at < flush_done(flushes, fence, line) {
        return true;
    }
    let more = left[line];
    if more == 0 {
        return false;
    }
    left[line] = more - 1;
    true
}

// Makes of the first c commands of a well-formed tape the stores that a cut keeps.
fn replay(work: &mut [u8], left: &mut [u8], flushes: &[usize], fence: usize, tape: &[u8], c: usize)
    requires work_len_bound { (length work.old ≤ 64 * (length flushes.now / 2)) × (length work.old ≤ 64 * length left.old) }
    requires tape_value { (well_formed (decode (length work.old) tape.now) ≡ true) × (c ≤ length (decode (length work.old) tape.now)) }
    requires tells { Tells flushes.now fence (take c (decode (length work.old) tape.now)) }
    ensures { work.new ≡ cut_image work.old (λ l. get_or left.old l 0) c (decode (length work.old) tape.now) }
{
    let mut at = 0;
    for _done in 0..c {
        let kind = tape[at];
        let place = codec::number_at(tape, at + 2);
        if kind == 1 {
            if is_kept(flushes, left, fence, at, place / 8) {
                codec::copy_word(work, 8 * place, tape, at + 4);
            }
            at = at + 12;
        } else if kind == 2 {
            if is_kept(flushes, left, fence, at, place) {
                codec::copy_line(work, 64 * place, tape, at + 4);
            }
            at = at + 68;
        } else {
            at = at + 4;
        }
    }
}

// What cut does once the buffers are of the right sizes, with room for each line's count and its two flushes.
fn cut_tape(
    image: &[u8],
    work: &mut [u8],
    tape: &[u8],
    c: usize,
    left: &mut [u8],
    flushes: &mut [usize],
) -> Result<(), Refusal>
    requires image_len_bound { (length image.now ≤ 65536) × (length work.old ≡ length image.now) × (length image.now ≤ 64 * length left.old) × (length image.now ≤ 64 * (length flushes.old / 2)) }
    requires by_index { (l : ℕ) → get_or flushes.old l 0 ≡ 0 }
    ensures value { result ≡ (cut_tape image.now work.old tape.now c (λ l. get_or left.old l 0)).answer }
    ensures work_after { work.new ≡ (cut_tape image.now work.old tape.now c (λ l. get_or left.old l 0)).work }
{
    let Some(found) = judge(flushes, tape, image.len(), c) else {
        return Err(Refusal::of(Cause::BadTape));
    };
    if found.count < c {
        return Err(Refusal::of(Cause::PastEnd));
    }
    codec::copy_all(work, image);
    replay(work, left, flushes, found.fence, tape, c);
    Ok(())
}

// The same, with room for so many lines and so many flushes, two a line.
fn cut_with<const LINES: usize, const FLUSHES: usize>(
    image: &[u8],
    work: &mut [u8],
    tape: &[u8],
    c: usize,
    choices: &[u8],
) -> Result<(), Refusal>
    requires room { (LINES ≤ 1024) × (FLUSHES ≡ 2 * LINES) }
    requires sizes { (length image.now ≤ 64 * LINES) × (length work.old ≡ length image.now) × (length choices.now ≡ length image.now / 64) }
    ensures value { result ≡ (cut_tape image.now work.old tape.now c (λ l. get_or choices.now l 0)).answer }
    ensures work_after { work.new ≡ (cut_tape image.now work.old tape.now c (λ l. get_or choices.now l 0)).work }
{
    let mut left = [0u8; LINES];
    let mut flushes = [0usize; FLUSHES];
    codec::copy(&mut left, 0, choices, 0, choices.len());
    cut_tape(image, work, tape, c, &mut left, &mut flushes)
}

// The image that a cut after c commands leaves, in work: each line keeps as many of its pending stores as its choice says.
pub fn cut(
    image: &[u8],
    work: &mut [u8],
    tape: &[u8],
    c: usize,
    choices: &[u8],
) -> Result<(), Refusal>
    ensures value { result ≡ (cut_call image.now work.old tape.now c choices.now).answer }
    ensures work_after { work.new ≡ (cut_call image.now work.old tape.now c choices.now).work }
{
    let n = image.len();
    if !is_image_size(n) {
        return Err(Refusal::of(Cause::ImageSize));
    }
    if work.len() != n {
        return Err(Refusal::of(Cause::WorkSize));
    }
    if choices.len() != n / 64 {
        return Err(Refusal::of(Cause::BadChoices));
    }
    // The room of the smallest image takes less time to clear than that of any.
    if n == 8192 {
        return cut_with::<128, 256>(image, work, tape, c, choices);
    }
    cut_with::<1024, 2048>(image, work, tape, c, choices)
}

// Writes the head of a command.
fn put_head(tape: &mut [u8], at: usize, kind: usize, place: usize)
    requires { (at + 4 ≤ length tape.old) × (kind < 256) }
    ensures { tape.new ≡ splice tape.old at (head_bytes kind place) }
{
    codec::put_number(tape, at, kind);
    codec::put_number(tape, at + 2, place);
}

// Writes a word store of the eight bytes of src from `from` on.
pub fn emit_word(tape: &mut [u8], at: usize, word: usize, src: &[u8], from: usize)
    requires { (at + 12 ≤ length tape.old) × (from + 8 ≤ length src.now) }
    ensures { tape.new ≡ splice tape.old at (word_bytes word (part src.now from 8)) }
{
    put_head(tape, at, 1, word);
    codec::copy_word(tape, at + 4, src, from);
}

// Writes a line store of the 64 bytes of src from `from` on.
pub fn emit_line(tape: &mut [u8], at: usize, line: usize, src: &[u8], from: usize)
    requires { (at + 68 ≤ length tape.old) × (from + 64 ≤ length src.now) }
    ensures { tape.new ≡ splice tape.old at (line_bytes line (part src.now from 64)) }
{
    put_head(tape, at, 2, line);
    codec::copy_line(tape, at + 4, src, from);
}

// Writes a flush.
pub fn emit_flush(tape: &mut [u8], at: usize, line: usize)
    requires { at + 4 ≤ length tape.old }
    ensures { tape.new ≡ splice tape.old at (flush_bytes line) }
{
    put_head(tape, at, 3, line);
}

// Writes a barrier.
pub fn emit_barrier(tape: &mut [u8], at: usize)
    requires { at + 4 ≤ length tape.old }
    ensures { tape.new ≡ splice tape.old at barrier_bytes }
{
    put_head(tape, at, 4, 0);
}
