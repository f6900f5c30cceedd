// Lines and tab-parted fields of a text.
ghost use Rattle.std.specs.Prelude.{◌≡◌, ℕ, ◌+◌, ◌<◌, ◌≤◌, [], length, ◌≢◌, slice_index, slice_index_or, ◌==◌};
ghost use Rattle.std.specs.List.{position};
ghost use Rattle.std.specs.Iterator.{at_most};
ghost use Rattle.document.specs.TextLines.{NextLine};
ghost use Rattle.document.specs.Texts.{fields};

use crate::fault::LineFault;

// Where the byte first stands.
fn place(text: &[u8], byte: u8) -> Option<usize>
    ensures { result ≡ position (λ b. b == byte) text.now }
{
    text.iter().position(|b| *b == byte)
}

// Where the byte next stands at or after `at`, or the length.
// Kept: nothing here calls it, the lines of a text are told by `Lines`; by a rule of the project no public promise goes.
pub fn next_place(text: &[u8], at: usize, byte: u8) -> usize
    requires { at ≤ length text.now }
    ensures within { (at ≤ result) × (result ≤ length text.now) }
    ensures before { (k : ℕ) → at ≤ k → k < result → slice_index text.now k ≢ byte }
    ensures here { result < length text.now → slice_index text.now result ≡ byte }
{
    place(&text[at..], byte).map_or(text.len(), |k| at + k)
}

// The lines of a text, one after another, each without its line feed. The last has to have one too.
#[derive(Clone, Copy)]
pub struct Lines<'a> {
    left: &'a [u8],
}

impl<'a> Lines<'a> {
    pub fn new(text: &'a [u8]) -> Lines<'a>
        ensures { result.left.now ≡ text.now }
    {
        Lines { left: text }
    }
}

impl<'a> Iterator for Lines<'a> {
    type Item = Result<&'a [u8], LineFault>;

    ghost next_gives = { λ s r t. NextLine s.left.now r t.left.now };

    ghost remaining = { λ s. at_most (length s.left.now) };

    fn next(&mut self) -> Option<Result<&'a [u8], LineFault>> {
        let left = self.left;
        if left.is_empty() {
            return None;
        }
        match place(left, b'\n') {
            Some(end) => {
                self.left = &left[end + 1..];
                Some(Ok(&left[..end]))
            }
            None => {
                self.left = &[];
                Some(Err(LineFault::Shape))
            }
        }
    }
}

// How many fields a line has: one more than its tabs.
pub fn field_count(line: &[u8]) -> usize
    ensures { result ≡ length (fields line.now) }
{
    line.iter().filter(|b| **b == b'\t').count() + 1
}

// The field of a number, counted from 0; empty past the last.
pub fn field(line: &[u8], number: usize) -> &[u8]
    ensures { result.now ≡ slice_index_or (fields line.now) number [] }
{
    line.split(|b| *b == b'\t').nth(number).unwrap_or(&[])
}
