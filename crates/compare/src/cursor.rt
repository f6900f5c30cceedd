// The file of cases, read from the front: words, numbers and byte strings.
ghost use Rattle.std.specs.Prelude.{◌≡◌, ℕ, ◌+◌, ◌<◌, ◌≤◌, length, IfOk, IsOkUnless, ◌==◌, ◌||◌, vec_len};

use crate::stop::Stop;
use std::alloc::Global;

// Places that a record may ask for.
pub const MOST_PLACES: usize = 4194304;

// Kept: the heap stands beside a cursor as a parameter of the readers that need it; others, as that of `load`, read without one.
#[derive(Drop)]
pub struct Cursor<'a> {
    file: &'a [u8],
    at: usize,
    ghost within: { at ≤ length file.now },
}

fn is_gap(byte: u8) -> bool
    ensures { result ≡ ((byte == 32) || (byte == 10)) }
{
    byte == b' ' || byte == b'\n'
}

// The place of the first gap from `at` on, or the end.
fn gap_from(file: &[u8], at: usize) -> usize
    requires { at ≤ length file.now }
    ensures { (at ≤ result) × (result ≤ length file.now) }
{
    file[at..]
        .iter()
        .position(|byte| is_gap(*byte))
        .map_or(file.len(), |i| at + i)
}

// The number that the word spells in decimal.
// Kept: beside `lasso::decimal::read_state`, which takes at most four digits and no leading zero.
fn decimal(word: &[u8]) -> Option<u64> {
    let mut value: u64 = 0;
    for byte in word {
        if !byte.is_ascii_digit() {
            return None;
        }
        value = value.checked_mul(10)?.checked_add(u64::from(*byte - b'0'))?;
    }
    (!word.is_empty()).then_some(value)
}

impl<'a> Cursor<'a> {
    pub fn new(file: &'a [u8]) -> Cursor<'a>
        ensures { (result.at ≡ 0) × (result.file.now ≡ file.now) }
    {
        Cursor { file, at: 0 }
    }

    pub fn is_at_end(&self) -> bool
        ensures { result ≡ (self.now.at == length self.now.file.now) }
    {
        self.at == self.file.len()
    }

    // That the file is malformed here.
    pub fn malformed(&self) -> Stop
        ensures { result ≡ Stop.Malformed self.now.at }
    {
        Stop::Malformed { at: self.at }
    }

    // The next word; it is empty at the end and before a gap.
    pub fn word(&mut self) -> &'a [u8]
        ensures { self.old.at + length result.now ≤ self.new.at }
    {
        let file = self.file;
        let start = self.at;
        let end = gap_from(file, start);
        self.at = if end < file.len() { end + 1 } else { end };
        &file[start..end]
    }

    // A number that the type holds.
    pub fn number<T: TryFrom<u64>>(&mut self) -> Result<T, Stop>
    where
        T::Error: Drop,
        ensures { IsOkUnless result (Stop.Malformed self.old.at) }
    {
        let stop = self.malformed();
        let value = decimal(self.word()).ok_or(stop)?;
        T::try_from(value).map_err(|_| stop)
    }

    // A number up to a limit.
    fn number_to(&mut self, most: u64) -> Result<u64, Stop>
        ensures small { IfOk result (λ n. n ≤ most) }
        ensures malformed { IsOkUnless result (Stop.Malformed self.old.at) }
    {
        let stop = self.malformed();
        let value = self.number()?;
        (value <= most).then_some(value).ok_or(stop)
    }

    // A number of places.
    pub fn places(&mut self) -> Result<usize, Stop>
        ensures few { IfOk result (λ n. n ≤ 4194304) }
        ensures malformed { IsOkUnless result (Stop.Malformed self.old.at) }
    {
        Ok(self.number_to(MOST_PLACES as u64)? as usize)
    }

    // A byte string: its length, and then that many bytes and a line feed.
    pub fn bytes(&mut self) -> Result<&'a [u8], Stop>
        ensures { IfOk result (λ s. length s.now < self.new.at) }
    {
        let most = self.file.len() as u64;
        let len = self.number_to(most)? as usize;
        let file = self.file;
        let start = self.at;
        if len >= file.len() - start || file[start + len] != b'\n' {
            return Err(self.malformed());
        }
        let end = start + len;
        self.at = end + 1;
        Ok(&file[start..end])
    }

    // So many entries in a row.
    pub fn list<T: Drop, R: FnMut(&mut Cursor<'a>) -> Result<T, Stop>>(
        &mut self,
        heap: Global,
        count: usize,
        mut read: R,
    ) -> Result<Vec<T>, Stop>
        requires { R.IsAlwaysCallable read }
        ensures { IfOk result (λ v. vec_len v ≡ count) }
    {
        let mut all = Vec::new(heap);
        for _ in 0..count {
            all.push(read(self)?)?;
        }
        Ok(all)
    }
}
