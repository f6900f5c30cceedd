// Names: 1 to 16 of a-z, 0-9 and _, a letter first.
ghost use Rattle.std.specs.Prelude.{◌≡◌, ◌≤◌, map, length, Decides, MatchOption, slice_index};
ghost use Rattle.program.specs.Names.{letter, naming, Named, spelled, Absent, Number};
ghost use Rattle.program.specs.Spellings.{Missing, NumberIn};

// Kept: an array with a count and no `String`, since names lie in a document's fixed memory.
#[derive(Clone, Copy, Debug, Default)]
pub struct Name {
    bytes: [u8; 16],
    len: usize,
}

pub fn is_letter(b: u8) -> bool
    ensures { result ≡ letter b }
{
    matches!(b, b'a'..=b'z')
}

pub fn is_naming(b: u8) -> bool
    ensures { result ≡ naming b }
{
    matches!(b, b'a'..=b'z' | b'0'..=b'9' | b'_')
}

// Whether the field is a well-formed name.
pub fn is_name(field: &[u8]) -> bool
    ensures { Decides result (Named field.now) }
{
    match field {
        [] => false,
        [first, ..] => {
            field.len() <= 16 && is_letter(*first) && field.iter().all(|b| is_naming(*b))
        }
    }
}

impl Name {
    // A name of no letter, for places not in use.
    pub fn blank() -> Name
        ensures { result.len ≡ 0 }
    {
        Name::default()
    }

    // The name that the field spells, if it is well formed.
    // Kept: an Option and no `TryFrom`: there is one reason for none, and each caller has its own fault for it.
    pub fn read(field: &[u8]) -> Option<Name>
        ensures { MatchOption result (Named field.now → ⊥) (λ n. Named field.now × (spelled n ≡ field.now)) }
    {
        if !is_name(field) {
            return None;
        }
        let mut bytes = [0; 16];
        bytes[..field.len()].copy_from_slice(field);
        Some(Name {
            bytes,
            len: field.len(),
        })
    }

    // The bytes of the name.
    pub fn as_bytes(&self) -> &[u8]
        ensures is { result.now ≡ spelled self.now }
        ensures few { length result.now ≤ 16 }
    {
        &self.bytes[..self.len.min(16)]
    }

    // Kept: the bytes are read by `as_bytes`, not by this and `byte`; by a rule of the project no public promise goes.
    pub fn len(&self) -> usize
        ensures is { result ≡ length (spelled self.now) }
        ensures few { result ≤ 16 }
    {
        self.as_bytes().len()
    }

    // The byte at a place below the length.
    pub fn byte(&self, k: usize) -> u8
        ensures { result ≡ slice_index (spelled self.now) k }
    {
        self.as_bytes().get(k).copied().unwrap_or(0)
    }

    // Whether the field spells this name.
    pub fn is(&self, field: &[u8]) -> bool
        ensures { Decides result (spelled self.now ≡ field.now) }
    {
        self.as_bytes() == field
    }
}

// The number of the name that the field spells.
pub fn find(names: &[Name], field: &[u8]) -> Option<usize>
    ensures is { MatchOption result (Absent names.now (length names.now) field.now) (λ i. Number names.now field.now i) }
    ensures by_bytes { MatchOption result (Missing (map spelled names.now) field.now) (λ i. NumberIn (map spelled names.now) field.now i) }
{
    names.iter().position(|name| name.is(field))
}
