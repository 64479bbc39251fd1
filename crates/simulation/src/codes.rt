//! Blocks of input codes.
ghost use Rattle.std.specs.Prelude.{◌≡◌, ℕ, ◌<◌, ◌≤◌, length, slice_index};
ghost use Rattle.aig.specs.Values.{bit};

/// At most 64 input codes: each has a bit of its own in a word.
#[derive(Clone, Copy, PartialEq, Eq, Debug)]
pub struct Codes<'a> {
    pub list: &'a [u64],
    pub ghost few: { length list.now ≤ 64 },
}

impl<'a> Codes<'a> {
    /// The codes of a list.
    pub fn new(list: &'a [u64]) -> Codes<'a>
        requires { length list.now ≤ 64 }
        ensures { result.list.now ≡ list.now }
    {
        Codes { list }
    }

    /// The word of an input: its bit of each code, that of code `k` at the place `k`.
    pub fn gather(self, input: usize) -> u64
        requires { input < 64 }
        ensures { (k : ℕ) → k < length self.entry.list.now → bit result k ≡ bit (slice_index self.entry.list.now k) input }
    {
        self.list
            .iter()
            .rev()
            .fold(0, |word, code| word << 1 | (*code >> input) & 1)
    }
}
