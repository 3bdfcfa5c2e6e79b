// The bytes and flushes of a tape, by what differs and by the way in which a line is written.
ghost use Rattle.std.specs.Prelude.{◌≡◌, ℕ, ◌≤◌};
ghost use Rattle.tape_write.specs.Sizes.{lines_bytes, group_bytes, replay_bytes, commits_alone, end_bytes, end_flushes};

use journal::Way;

// The bytes of the stores of k lines.
pub fn lines_bytes(way: Way, k: usize) -> usize
    requires { k ≤ 65536 }
    ensures { result ≡ lines_bytes way k }
{
    match way {
        Way::ByLine => 68 * k,
        Way::ByWords => 96 * k,
    }
}

// The bytes of n flushes and their barrier.
pub fn group_bytes(n: usize) -> usize
    requires { n ≤ 65536 }
    ensures { result ≡ group_bytes n }
{
    if n == 0 {
        return 0;
    }
    4 * n + 4
}

// The bytes of a recovery's tape.
pub fn replay_bytes(way: Way, headers: usize, same: bool) -> usize
    requires { headers ≤ 65536 }
    ensures { result ≡ replay_bytes way headers same }
{
    let lines = lines_bytes(way, headers) + group_bytes(headers);
    if same {
        return lines + 20;
    }
    lines + 32
}

// Whether one header is all that changed, and a line store commits it.
pub fn commits_alone(way: Way, k: usize, same: bool) -> bool
    ensures { result ≡ commits_alone way k same }
{
    match way {
        Way::ByLine => k == 1 && same,
        Way::ByWords => false,
    }
}

// The bytes of what follows stage A.
pub fn end_bytes(way: Way, k: usize, same: bool) -> usize
    requires { k ≤ 15 }
    ensures { result ≡ end_bytes way k same }
{
    if k == 0 {
        return 20;
    }
    if commits_alone(way, k, same) {
        return 76;
    }
    lines_bytes(way, k) + group_bytes(k) + 20 + replay_bytes(way, k, same)
}

// Its flushes.
pub fn end_flushes(way: Way, k: usize, same: bool) -> usize
    requires { k ≤ 15 }
    ensures { result ≡ end_flushes way k same }
{
    if k == 0 {
        return 1;
    }
    if commits_alone(way, k, same) {
        return 1;
    }
    2 * k + 2
}
