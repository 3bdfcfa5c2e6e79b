// A line on the tape, in the device's way: one line store, or "eight word stores in rising order" (document 02 (d)).
ghost use Rattle.std.specs.Prelude.{◌≡◌, ℕ, ◌+◌, ◌*◌, ◌≤◌, length};
ghost use Rattle.std.proofs.lemmas.List.Edits.{sets};
ghost use Rattle.codec.specs.Lists.{part};
ghost use Rattle.device.specs.Tape.{tape_bytes};
ghost use Rattle.page.specs.Layout.{line_size};
ghost use Rattle.journal.specs.Way.{line_by};
ghost use Rattle.journal.specs.declared.Way.TheVariants.{ByWords};
ghost use Rattle.tape_write.specs.Lines.{line_most};
ghost use Rattle.tape_write.specs.Sizes.{lines_bytes};

use journal::Way;

// Writes the eight word stores of a line.
pub fn emit_eight(tape: &mut [u8], at: usize, line: usize, src: &[u8], from: usize)
    requires { (at + 96 ≤ length tape.old) × (from + 64 ≤ length src.now) × (line ≤ line_most) }
    ensures { tape.new ≡ sets tape.old at (tape_bytes (line_by ByWords (line_size * line) (part src.now from line_size))) }
{
    for i in 0..8 {
        device::emit_word(tape, at + 12 * i, 8 * line + i, src, from + 8 * i);
    }
}

// Writes the stores of a line.
pub fn emit_line(way: Way, tape: &mut [u8], at: usize, line: usize, src: &[u8], from: usize)
    requires { (at + lines_bytes way 1 ≤ length tape.old) × (from + 64 ≤ length src.now) × (line ≤ line_most) }
    ensures { tape.new ≡ sets tape.old at (tape_bytes (line_by way (line_size * line) (part src.now from line_size))) }
{
    match way {
        Way::ByLine => device::emit_line(tape, at, line, src, from),
        Way::ByWords => emit_eight(tape, at, line, src, from),
    }
}
