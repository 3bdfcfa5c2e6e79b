// The edits that wait for a commit.
ghost use Rattle.std.specs.Prelude.{◌≡◌, ◌*◌, ◌≤◌};

// "Edits past the seventeenth .. are dropped."
const MOST_EDITS: usize = 17;

// They stand at the front of a list that has room for 17 of 18 bytes, and take `used` bytes of it.
#[derive(Drop)]
pub struct Waiting {
    list: [u8; 306],
    edits: usize,
    used: usize,
    ghost few: { edits ≤ 17 },
    ghost fits: { used ≤ 18 * edits },
}

impl Waiting {
    ghost use Rattle.std.specs.Prelude.{ℕ, List, take};
    ghost use Rattle.sheet.specs.declared.form.Totals.{Totals};
    ghost use Rattle.sheet.specs.Steps.{waits, state_of};

    // None wait.
    pub fn new() -> Waiting
        ensures edits { result.edits ≡ 0 }
        ensures used { result.used ≡ 0 }
    {
        Waiting {
            list: [0; 306],
            edits: 0,
            used: 0,
        }
    }

    // The edit list of those that wait.
    pub fn list(&self) -> &[u8]
        ensures { result.now ≡ take self.now.used self.now.list }
    {
        &self.list[..self.used]
    }

    // Adds an edit, if it is not past the seventeenth.
    pub fn wait(&mut self, kind: u8, key: u64, price: u64)
        ensures { (image : List ℕ) (totals : Totals) → state_of image self.new totals ≡ waits kind key price (state_of image self.old totals) }
    {
        if MOST_EDITS <= self.edits {
            return;
        }
        let used = self.used;
        self.used = lines::put_edit(&mut self.list, used, kind, key, price);
        self.edits += 1;
    }
}
