// Writing a lasso's text: a line for each step.
ghost use Rattle.std.specs.Prelude.{◌≡◌, ◌+◌, ◌^◌, ◌<◌, ◌≤◌, cond, [], ◌∷◌, length, if◌then◌else◌, codes, MatchOption, IfNone};
ghost use Rattle.std.specs.List.{AllByRecursion};
ghost use Rattle.program.specs.Names.{Named, spelled};
ghost use Rattle.document.specs.Kept.{names_of};
ghost use Rattle.lasso.specs.DeclaredNames.{acts_of, props_of};
ghost use Rattle.lasso.specs.Lassos.{IsLasso};
ghost use Rattle.lasso.specs.LassoTexts.{digits, joined, marked, worded_line, worded_lasso, lasso_text};
ghost use Rattle.lasso.specs.Parts.{is_stem};
ghost use Rattle.lasso.specs.Written.{written, Wrote, Printed};

use crate::part::Part;
use crate::step::Step;
use document::declared::Declared;
use document::document::Document;
use document::names::Names;
use program::masks;
use program::name::Name;

// A text that is written from its first byte on; what comes after its end is only counted.
#[derive(Drop)]
struct Writer<'a> {
    text: &'a mut [u8],
    at: usize,
}

impl Writer<'_> {
    fn byte(&mut self, byte: u8)
        requires { self.old.at < 2 ^ 40 }
        ensures { Wrote self.old self.new (byte ∷ []) }
    {
        if self.at < self.text.len() {
            self.text[self.at] = byte;
        }
        self.at += 1;
    }

    fn word(&mut self, word: &[u8])
        requires { (self.old.at < 2 ^ 39) × (length word.now ≤ 16) }
        ensures { Wrote self.old self.new word.now }
    {
        for byte in word {
            self.byte(*byte);
        }
    }

    // `stem` or `loop`
    fn part(&mut self, part: Part)
        requires { self.old.at < 2 ^ 39 }
        ensures { Wrote self.old self.new (cond (is_stem part) (codes "stem") (codes "loop")) }
    {
        match part {
            Part::Stem => self.word(b"stem"),
            Part::Loop => self.word(b"loop"),
        }
    }

    fn name(&mut self, name: Name)
        requires { self.old.at < 2 ^ 39 }
        ensures few { self.new.at ≤ self.old.at + 16 }
        ensures wrote { Wrote self.old self.new (spelled name) }
    {
        self.word(name.as_bytes());
    }

    // A digit, left out where it is 0 and no other stands before it.
    fn digit(&mut self, digit: u16, shown: bool)
        requires { (self.old.at < 2 ^ 39) × (digit < 10) }
        ensures few { self.new.at ≤ self.old.at + 1 }
        ensures wrote { Wrote self.old self.new (if shown then (48 + digit) ∷ [] else []) }
    {
        if shown {
            self.byte(b'0' + digit as u8);
        }
    }

    // A state in decimal, without leading zeros.
    // Kept: digit by digit and not by `write!`. The count `at` must not overflow, so each method here requires room, and a
    // `write_str` of `fmt::Write` can require nothing.
    fn state(&mut self, state: u16)
        requires { self.old.at < 2 ^ 38 }
        ensures few { self.new.at ≤ self.old.at + 5 }
        ensures wrote { Wrote self.old self.new (digits state) }
    {
        self.digit(state / 10000, state >= 10000);
        self.digit(state / 1000 % 10, state >= 1000);
        self.digit(state / 100 % 10, state >= 100);
        self.digit(state / 10 % 10, state >= 10);
        self.digit(state % 10, true);
    }

    // A name, after a comma if it is not the first.
    fn mark(&mut self, name: Name, first: bool)
        requires { self.old.at + 1 < 2 ^ 39 }
        ensures few { self.new.at ≤ self.old.at + 17 }
        ensures wrote { Wrote self.old self.new (if first then spelled name else 44 ∷ spelled name) }
    {
        if !first {
            self.byte(b',');
        }
        self.name(name);
    }

    // Marks in proposition order joined by commas, or `-`.
    fn marks(&mut self, props: &Names, marks: u16)
        requires { (self.old.at < 2 ^ 38) × (props.now.count ≤ 16) }
        ensures few { self.new.at ≤ self.old.at + 273 }
        ensures wrote { Wrote self.old self.new (joined (marked (names_of props.now) 0 marks)) }
    {
        let mut first = true;
        for p in 0..props.count() {
            if masks::has(marks as u64, p) {
                self.mark(props.at(p), first);
                first = false;
            }
        }
        if first {
            self.byte(b'-');
        }
    }

    // The line of one step.
    fn step(&mut self, declared: &Declared, part: Part, step: Step)
        requires { self.old.at < 2 ^ 37 }
        ensures same { self.new.text.ghost_name ≡ self.old.text.ghost_name }
        ensures few { self.new.at ≤ self.old.at + 302 }
        ensures wrote { step.state < 10000 → step.action < declared.now.acts.count → Wrote self.old self.new (worded_line (acts_of declared.now) (props_of declared.now) (is_stem part) step) }
    {
        self.part(part);
        self.byte(b'\t');
        self.name(declared.acts().at(step.action as usize));
        self.byte(b'\t');
        self.state(step.state);
        self.byte(b'\t');
        self.marks(declared.props(), step.marks);
        self.byte(b'\n');
    }
}

// Writes as much of the lasso's text as there is room for. Answers the length of all of it.
fn write(document: &Document, steps: &[Step], stem: usize, text: &mut [u8]) -> usize
    requires { length steps.now ≤ 131072 }
    ensures length { IsLasso document.now.declared.acts.count document.now.declared.props.count steps.now stem → result ≡ length (worded_lasso (acts_of document.now.declared) (props_of document.now.declared) steps.now stem) }
    ensures text { IsLasso document.now.declared.acts.count document.now.declared.props.count steps.now stem → text.new ≡ written text.old 0 (worded_lasso (acts_of document.now.declared) (props_of document.now.declared) steps.now stem) }
{
    let declared = document.declared();
    let mut out = Writer { text, at: 0 };
    for (i, step) in steps.iter().enumerate() {
        out.step(&declared, Part::at(i, stem), *step);
    }
    out.at
}

// Writes the lasso's text into the first bytes, and answers its length; where it does not fit, nothing is written.
// Kept: steps and stem and no `Lasso`: any steps are written, also none, and a stem past the last; a `Lasso` would
// refuse those.
pub fn print(document: &Document, steps: &[Step], stem: usize, text: &mut [u8]) -> Option<usize>
    requires { length steps.now ≤ 131072 }
    ensures untouched { IfNone result (text.new ≡ text.old) }
    ensures words { IsLasso document.now.declared.acts.count document.now.declared.props.count steps.now stem → Printed (worded_lasso (acts_of document.now.declared) (props_of document.now.declared) steps.now stem) text.old text.new result }
    ensures text { IsLasso document.now.declared.acts.count document.now.declared.props.count steps.now stem → AllByRecursion Named (props_of document.now.declared) → Printed (lasso_text (acts_of document.now.declared) (props_of document.now.declared) steps.now stem) text.old text.new result }
{
    let needed = write(document, steps, stem, &mut []);
    if needed > text.len() {
        return None;
    }
    Some(write(document, steps, stem, text))
}
