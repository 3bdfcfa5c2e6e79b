// The store for C and Rust: every call answers a number, 0 if accepted, else the refusal's. What a call answers besides is written to a
// lent array of numbers, if it has room.
#![tactic(auto)]

ghost use Rattle.std.specs.Prelude.{◌≡◌};
ghost use Rattle.device.specs.Calls.{number_of, run_call, cut_call};
ghost use Rattle.cuts.specs.Calls.{count_call, nth_call};
ghost use Rattle.image.specs.Calls.{format_call, check_call, lookup_call, next_call};
ghost use Rattle.journal.specs.declared.Way.TheVariants.{ByLine, ByWords};
ghost use Rattle.preview.specs.Calls.{preview_call};
ghost use Rattle.merge.specs.Calls.{merge_call};
ghost use Rattle.transaction.specs.Calls.{transaction_call};
ghost use Rattle.recovery.specs.Calls.{recover_call};
ghost use Rattle.store.specs.Numbers.{lent, counted_numbers, lookup_numbers, next_numbers, preview_numbers, commit_numbers, transacted_numbers, recovered_numbers};

use cuts::{count_cuts, nth_cut};
use device::Refusal;
use image::calls;
use journal::{Commit, CommitPlace, Redone};
use preview::Preview;
use preview::calls::preview;
use recovery::{recover, recover_words};
use transaction::{transaction, transaction_words};

// The number of an answer that gives nothing more: 0 if accepted.
fn number_of(answer: Result<(), Refusal>) -> u8
    ensures { result ≡ number_of answer }
{
    match answer {
        Ok(()) => 0,
        Err(refusal) => refusal.cause.number(),
    }
}

// Writes the numbers to the front of a lent array, if they fit.
fn put_numbers(answer: &mut [u64], numbers: &[u64])
    ensures { answer.new ≡ lent answer.old numbers.now }
{
    let n = numbers.len();
    if answer.len() < n {
        return;
    }
    answer[..n].copy_from_slice(numbers);
}

#[unsafe(no_mangle)]
pub extern "C" fn quote_run(image: &[u8], work: &mut [u8], tape: &[u8]) -> u8
    ensures value { result ≡ number_of (run_call image.now work.old tape.now).answer }
    ensures work_after { work.new ≡ (run_call image.now work.old tape.now).work }
{
    number_of(device::run(image, work, tape))
}

#[unsafe(no_mangle)]
pub extern "C" fn quote_cut(
    image: &[u8],
    work: &mut [u8],
    tape: &[u8],
    c: usize,
    choices: &[u8],
) -> u8
    ensures value { result ≡ number_of (cut_call image.now work.old tape.now c choices.now).answer }
    ensures work_after { work.new ≡ (cut_call image.now work.old tape.now c choices.now).work }
{
    number_of(device::cut(image, work, tape, c, choices))
}

// Writes what a call on all cuts answers besides its number, which is the answer.
fn put_counted(answer: &mut [u64], counted: Result<usize, Refusal>) -> u8
    ensures value { result ≡ number_of counted }
    ensures answer_after { answer.new ≡ lent answer.old (counted_numbers counted) }
{
    match counted {
        Ok(number) => {
            put_numbers(answer, &[number as u64]);
            0
        }
        Err(refusal) => refusal.cause.number(),
    }
}

#[unsafe(no_mangle)]
pub extern "C" fn quote_count_cuts(image: &[u8], tape: &[u8], answer: &mut [u64]) -> u8
    ensures value { result ≡ number_of (count_call image.now tape.now) }
    ensures answer_after { answer.new ≡ lent answer.old (counted_numbers (count_call image.now tape.now)) }
{
    let counted = count_cuts(image, tape);
    put_counted(answer, counted)
}

#[unsafe(no_mangle)]
pub extern "C" fn quote_nth_cut(
    image: &[u8],
    tape: &[u8],
    r: usize,
    choices: &mut [u8],
    answer: &mut [u64],
) -> u8
    ensures value { result ≡ number_of (nth_call image.now tape.now r choices.old).answer }
    ensures choices_after { choices.new ≡ (nth_call image.now tape.now r choices.old).choices }
    ensures answer_after { answer.new ≡ lent answer.old (counted_numbers (nth_call image.now tape.now r choices.old).answer) }
{
    let counted = nth_cut(image, tape, r, choices);
    put_counted(answer, counted)
}

#[unsafe(no_mangle)]
pub extern "C" fn quote_format(image: &mut [u8]) -> u8
    ensures value { result ≡ number_of (format_call image.old).answer }
    ensures image_after { image.new ≡ (format_call image.old).image }
{
    number_of(calls::format(image))
}

#[unsafe(no_mangle)]
pub extern "C" fn quote_check(image: &[u8]) -> u8
    ensures { result ≡ number_of (check_call image.now) }
{
    number_of(calls::check(image))
}

#[unsafe(no_mangle)]
pub extern "C" fn quote_lookup(image: &[u8], key: u64, answer: &mut [u64]) -> u8
    ensures value { result ≡ number_of (lookup_call image.now key) }
    ensures answer_after { answer.new ≡ lent answer.old (lookup_numbers (lookup_call image.now key)) }
{
    match calls::lookup(image, key) {
        Ok(Some(part)) => {
            put_numbers(answer, &[1, part.offset as u64, part.length as u64]);
            0
        }
        Ok(None) => {
            put_numbers(answer, &[0, 0, 0]);
            0
        }
        Err(refusal) => refusal.cause.number(),
    }
}

#[unsafe(no_mangle)]
pub extern "C" fn quote_next_key(image: &[u8], key: u64, answer: &mut [u64]) -> u8
    ensures value { result ≡ number_of (next_call image.now key) }
    ensures answer_after { answer.new ≡ lent answer.old (next_numbers (next_call image.now key)) }
{
    match calls::next_key(image, key) {
        Ok(Some(next)) => {
            put_numbers(answer, &[1, next]);
            0
        }
        Ok(None) => {
            put_numbers(answer, &[0, 0]);
            0
        }
        Err(refusal) => refusal.cause.number(),
    }
}

#[unsafe(no_mangle)]
pub extern "C" fn quote_preview(image: &[u8], edits: &[u8], key: u64, answer: &mut [u64]) -> u8
    ensures value { result ≡ number_of (preview_call image.now edits.now key) }
    ensures answer_after { answer.new ≡ lent answer.old (preview_numbers (preview_call image.now edits.now key)) }
{
    match preview(image, edits, key) {
        Ok(Some(Preview::InList(part))) => {
            put_numbers(answer, &[0, 1, part.offset as u64, part.length as u64]);
            0
        }
        Ok(Some(Preview::InImage(part))) => {
            put_numbers(answer, &[0, 2, part.offset as u64, part.length as u64]);
            0
        }
        Ok(None) => {
            put_numbers(answer, &[0, 0, 0, 0]);
            0
        }
        Err(refusal) => {
            put_numbers(answer, &[refusal.edit as u64, 0, 0, 0]);
            refusal.cause.number()
        }
    }
}

#[unsafe(no_mangle)]
pub extern "C" fn quote_merge(first: &[u8], second: &[u8], out: &mut [u8]) -> u8
    ensures value { result ≡ number_of (merge_call first.now second.now out.old).answer }
    ensures out_after { out.new ≡ (merge_call first.now second.now out.old).work }
{
    number_of(merge::merge(first, second, out))
}

// Writes the numbers of an accepted transaction.
fn put_commit(answer: &mut [u64], commit: Commit)
    ensures { answer.new ≡ lent answer.old (commit_numbers commit) }
{
    let bytes = commit.bytes as u64;
    let flushes = commit.flushes as u64;
    let place = commit.place;
    match place {
        CommitPlace::Header(page) => put_numbers(answer, &[0, 1, page as u64, bytes, flushes]),
        CommitPlace::Root => put_numbers(answer, &[0, 2, 0, bytes, flushes]),
        CommitPlace::Log => put_numbers(answer, &[0, 3, 0, bytes, flushes]),
    }
}

// Writes what a transaction answers besides its number, which is the answer.
fn put_transacted(answer: &mut [u64], transacted: Result<Commit, Refusal>) -> u8
    ensures value { result ≡ number_of transacted }
    ensures answer_after { answer.new ≡ lent answer.old (transacted_numbers transacted) }
{
    match transacted {
        Ok(commit) => {
            put_commit(answer, commit);
            0
        }
        Err(refusal) => {
            put_numbers(answer, &[refusal.edit as u64, 0, 0, 0, 0]);
            refusal.cause.number()
        }
    }
}

// The same of a recovery.
fn put_recovered(answer: &mut [u64], recovered: Result<Redone, Refusal>) -> u8
    ensures value { result ≡ number_of recovered }
    ensures answer_after { answer.new ≡ lent answer.old (recovered_numbers recovered) }
{
    match recovered {
        Ok(done) => {
            put_numbers(answer, &[done.bytes as u64, done.flushes as u64]);
            0
        }
        Err(refusal) => refusal.cause.number(),
    }
}

// Of the calls that differ by the device, the C interface has two functions each.
#[unsafe(no_mangle)]
pub extern "C" fn quote_transaction(
    image: &[u8],
    work: &mut [u8],
    tape: &mut [u8],
    edits: &[u8],
    answer: &mut [u64],
) -> u8
    ensures value { result ≡ number_of (transaction_call ByLine image.now work.old tape.old edits.now).answer }
    ensures work_after { work.new ≡ (transaction_call ByLine image.now work.old tape.old edits.now).work }
    ensures tape_after { tape.new ≡ (transaction_call ByLine image.now work.old tape.old edits.now).tape }
    ensures answer_after { answer.new ≡ lent answer.old (transacted_numbers (transaction_call ByLine image.now work.old tape.old edits.now).answer) }
{
    let done = transaction(image, work, tape, edits);
    put_transacted(answer, done)
}

#[unsafe(no_mangle)]
pub extern "C" fn quote_transaction_words(
    image: &[u8],
    work: &mut [u8],
    tape: &mut [u8],
    edits: &[u8],
    answer: &mut [u64],
) -> u8
    ensures value { result ≡ number_of (transaction_call ByWords image.now work.old tape.old edits.now).answer }
    ensures work_after { work.new ≡ (transaction_call ByWords image.now work.old tape.old edits.now).work }
    ensures tape_after { tape.new ≡ (transaction_call ByWords image.now work.old tape.old edits.now).tape }
    ensures answer_after { answer.new ≡ lent answer.old (transacted_numbers (transaction_call ByWords image.now work.old tape.old edits.now).answer) }
{
    let done = transaction_words(image, work, tape, edits);
    put_transacted(answer, done)
}

#[unsafe(no_mangle)]
pub extern "C" fn quote_recover(
    image: &[u8],
    work: &mut [u8],
    tape: &mut [u8],
    answer: &mut [u64],
) -> u8
    ensures value { result ≡ number_of (recover_call ByLine image.now work.old tape.old).answer }
    ensures work_after { work.new ≡ (recover_call ByLine image.now work.old tape.old).work }
    ensures tape_after { tape.new ≡ (recover_call ByLine image.now work.old tape.old).tape }
    ensures answer_after { answer.new ≡ lent answer.old (recovered_numbers (recover_call ByLine image.now work.old tape.old).answer) }
{
    let done = recover(image, work, tape);
    put_recovered(answer, done)
}

#[unsafe(no_mangle)]
pub extern "C" fn quote_recover_words(
    image: &[u8],
    work: &mut [u8],
    tape: &mut [u8],
    answer: &mut [u64],
) -> u8
    ensures value { result ≡ number_of (recover_call ByWords image.now work.old tape.old).answer }
    ensures work_after { work.new ≡ (recover_call ByWords image.now work.old tape.old).work }
    ensures tape_after { tape.new ≡ (recover_call ByWords image.now work.old tape.old).tape }
    ensures answer_after { answer.new ≡ lent answer.old (recovered_numbers (recover_call ByWords image.now work.old tape.old).answer) }
{
    let done = recover_words(image, work, tape);
    put_recovered(answer, done)
}
