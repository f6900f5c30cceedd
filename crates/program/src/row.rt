// What a program comes to: its action names in order, and masks of the names that can begin, end and follow.
// Names are numbered from 1; bit i of a mask stands for name i.
ghost use Rattle.std.specs.Prelude.{◌≡◌, ℕ, ◌+◌, ◌^◌, ◌<◌, ◌≤◌, length, replicate, if◌then◌else◌, bit_or};
ghost use Rattle.program.specs.Automata.{names as names_of};
ghost use Rattle.program.specs.Masks.{Marks};
ghost use Rattle.program.specs.Reading.{PartOf, Entered, Joined};
ghost use Rattle.program.specs.RowStates.{states_in};
ghost use Rattle.program.specs.Words.{Program, act, either as either-of, seq, star};

use crate::masks;

// Kept: arrays with a count and no `Vec`, since a row lies in a document's fixed memory. Names stand at places 1 to `names`.
#[derive(Clone, Copy, PartialEq, Eq, Debug, Default)]
pub struct Row {
    pub names: u8,
    pub actions: [u8; 16],
    // Whether the empty word is one of the program's words.
    pub nullable: bool,
    pub first: u16,
    pub last: u16,
    pub follow: [u16; 16],
}

impl Row {
    // A row of no name, for places not in use.
    pub fn blank() -> Row
        ensures { result.names ≡ 0 }
    {
        Row::default()
    }

    // How many states its automaton has: one for each name after state 0.
    pub fn states(&self) -> usize
        ensures is { result ≡ states_in self.now }
        ensures bound { (1 ≤ result) × (result ≤ 16) }
        ensures count { self.now.names < 16 → result ≡ self.now.names + 1 }
    {
        usize::from(self.names).min(15) + 1
    }
}

// A part of a program that was read, and the place where it ends.
#[derive(Clone, Copy, PartialEq, Eq, Debug)]
pub struct Part {
    // Whether the empty word is one of the part's words.
    pub nullable: bool,
    pub first: u16,
    pub last: u16,
    pub end: usize,
}

// The names of a mask, and those of another where `also` says so.
fn joined_if(mask: u16, more: u16, also: bool) -> u16
    ensures { result ≡ (if also then bit_or mask more else mask) }
{
    if also { mask | more } else { mask }
}

impl Part {
    // One part or the other.
    pub fn either(self, right: Part) -> Part
        ensures end { result.end ≡ right.end }
        ensures is { (p q : Program) (i : ℕ) → PartOf p i self → PartOf q (i + length (names_of p)) right → PartOf (either-of p q) i result }
    {
        Part {
            nullable: self.nullable || right.nullable,
            first: self.first | right.first,
            last: self.last | right.last,
            end: right.end,
        }
    }

    // One part and then the other.
    pub fn then(self, right: Part) -> Part
        ensures end { result.end ≡ right.end }
        ensures is { (p q : Program) (i : ℕ) → PartOf p i self → PartOf q (i + length (names_of p)) right → PartOf (seq p q) i result }
    {
        Part {
            nullable: self.nullable && right.nullable,
            first: joined_if(self.first, right.first, self.nullable),
            last: joined_if(right.last, self.last, right.nullable),
            end: right.end,
        }
    }

    // Zero or more times, with its stars read up to `end`.
    pub fn starred(self, end: usize) -> Part
        ensures end { result.end ≡ end }
        ensures is { (p : Program) (i : ℕ) → PartOf p i self → PartOf (star p) i result }
    {
        Part {
            nullable: true,
            first: self.first,
            last: self.last,
            end,
        }
    }
}

// The names read so far. All are counted; the first 15 are kept.
// Kept: arrays with a count and no `Vec`: a draft becomes a row, which holds the same arrays in fixed memory.
#[derive(Clone, Copy, PartialEq, Eq, Debug)]
pub struct Draft {
    pub names: usize,
    pub actions: [u8; 16],
    pub follow: [u16; 16],
}

impl Draft {
    pub fn new() -> Draft
        ensures { result ≡ record { names = 0; actions = replicate 16 0; follow = replicate 16 0 } }
    {
        Draft {
            names: 0,
            actions: [0; 16],
            follow: [0; 16],
        }
    }

    // One name more, of this action: its bit, or 0 past the fifteenth.
    pub fn add(&mut self, action: u8) -> u16
        requires { self.old.names + 1 < 2 ^ 64 }
        ensures count { self.new.names ≡ self.old.names + 1 }
        ensures entered { Entered (act action) self.old self.new }
        ensures bit { Marks result (λ n. n ≡ self.old.names + 1) }
    {
        self.names += 1;
        let name = self.names;
        if name > 15 {
            return 0;
        }
        self.actions[name] = action;
        1 << name
    }

    // Each name of `from` may be followed by each of `to`.
    pub fn connect(&mut self, from: u16, to: u16)
        ensures { Joined from to self.old self.new }
    {
        for (i, follow) in self.follow.iter_mut().enumerate() {
            if i >= 1 && masks::has(u64::from(from), i) {
                *follow |= to;
            }
        }
    }
}
