// The readers of a program's text: a sum of sequences of factors. Each gives the masks of its part, and enters
// its names and what follows what into the draft.
ghost use Rattle.std.specs.Prelude.{◌≡◌, ℕ, ◌<◌, ◌≤◌, true, false, map, length, IfOk, MatchResult, slice_index};
ghost use Rattle.program.specs.Names.{spelled};
ghost use Rattle.program.specs.Programs.{OneProgram, Refused, SpellsRow};
ghost use Rattle.program.specs.Spellings.{OneProgramIn, RefusedIn, SpellsRowIn};

use crate::check::check;
use crate::fault::ProgramFault;
use crate::name::{Name, find, is_naming};
use crate::row::{Draft, Part, Row};

// How many bytes at the front pass the test.
fn run<F: Fn(u8) -> bool>(bytes: &[u8], passes: F) -> usize
    requires { F.IsAlwaysCallable passes }
    ensures within { result ≤ length bytes.now }
    ensures all { (k : ℕ) → k < result → F.post passes (slice_index bytes.now k) true }
    ensures stops { result < length bytes.now → F.post passes (slice_index bytes.now result) false }
{
    bytes
        .iter()
        .position(|byte| !passes(*byte))
        .unwrap_or(bytes.len())
}

// A text over declared actions, and what was read of it up to a place.
#[derive(Drop)]
struct Reader<'t, 'n> {
    text: &'t [u8],
    acts: &'n [Name],
    at: usize,
    draft: Draft,
    ghost within: { at ≤ length text.now },
    ghost counted: { draft.names ≤ at },
}

impl<'t, 'n> Reader<'t, 'n> {
    ghost use Rattle.std.specs.Prelude.{◌≡◌, ℕ, ◌+◌, ◌<◌, ◌≤◌, drop, IfOk, Decides};
    ghost use Rattle.program.specs.Reading.{Sees, SameTexts, ClosedOff, ReadsWord, ReadsAtom, ReadsPart};
    ghost use Rattle.program.specs.Text.{Kind};
    ghost use Rattle.program.specs.declared.fault.ProgramFault.TheVariants.{Malformed};

    // The text from the place on.
    fn rest(&self) -> &'t [u8]
        ensures { result.now ≡ drop self.now.at self.now.text.now }
    {
        &self.text[self.at..]
    }

    // Whether the byte stands at the place.
    fn sees(&self, byte: u8) -> bool
        ensures { Decides result (Sees self.now byte) }
    {
        self.text.get(self.at) == Some(&byte)
    }

    // The fault of a byte that does not belong at the place.
    fn malformed(&self) -> ProgramFault
        ensures { result ≡ Malformed (self.now.at + 1) }
    {
        ProgramFault::Malformed {
            column: self.at + 1,
        }
    }

    // An action name.
    fn action(&mut self) -> Result<Part, ProgramFault>
        ensures same { SameTexts self.old self.new }
        ensures further { IfOk result (λ _. self.old.at < self.new.at) }
        ensures reads { ReadsWord self.old self.new result }
    {
        let rest = self.rest();
        let name = &rest[..run(rest, is_naming)];
        if name.is_empty() {
            return Err(self.malformed());
        }
        let number = find(self.acts, name).ok_or(ProgramFault::Undeclared)?;
        self.at += name.len();
        // An action is held in a byte; of at most 16 declared actions it is the number itself.
        let bit = self.draft.add((number & 0xff) as u8);
        Ok(Part {
            nullable: false,
            first: bit,
            last: bit,
            end: self.at,
        })
    }

    // The sum that was read behind an opening parenthesis, with the closing one.
    fn closed(&mut self, inside: Part) -> Result<Part, ProgramFault>
        ensures same { SameTexts self.old self.new }
        ensures closed { ClosedOff self.old self.new inside result }
    {
        if !self.sees(b')') {
            return Err(self.malformed());
        }
        self.at += 1;
        Ok(Part {
            end: self.at,
            ..inside
        })
    }

    // A name or a sum in parentheses.
    // Kept: the readers of the parts call each other, as the project asks, since the parts stand in each other.
    #[cycle(atom_factor_sequence_sum)]
    fn atom(&mut self) -> Result<Part, ProgramFault>
        ensures same { SameTexts self.old self.new }
        ensures further { IfOk result (λ _. self.old.at < self.new.at) }
        ensures reads { ReadsAtom self.old self.new result }
    {
        if !self.sees(b'(') {
            return self.action();
        }
        self.at += 1;
        let inside = self.sum()?;
        self.closed(inside)
    }

    // A name or a sum in parentheses, and its stars.
    #[cycle(atom_factor_sequence_sum)]
    fn factor(&mut self) -> Result<Part, ProgramFault>
        ensures same { SameTexts self.old self.new }
        ensures further { IfOk result (λ _. self.old.at < self.new.at) }
        ensures reads { ReadsPart Kind.factor self.old self.new result }
    {
        let base = self.atom()?;
        let stars = run(self.rest(), |byte| byte == b'*');
        if stars == 0 {
            return Ok(base);
        }
        self.at += stars;
        self.draft.connect(base.last, base.first);
        Ok(base.starred(self.at))
    }

    // Factors one after another.
    #[cycle(atom_factor_sequence_sum)]
    fn sequence(&mut self) -> Result<Part, ProgramFault>
        ensures same { SameTexts self.old self.new }
        ensures further { IfOk result (λ _. self.old.at < self.new.at) }
        ensures reads { ReadsPart Kind.sequence self.old self.new result }
    {
        let left = self.factor()?;
        if !self.sees(b';') {
            return Ok(left);
        }
        self.at += 1;
        let right = self.sequence()?;
        self.draft.connect(left.last, right.first);
        Ok(left.then(right))
    }

    // One sequence or another.
    #[cycle(atom_factor_sequence_sum)]
    fn sum(&mut self) -> Result<Part, ProgramFault>
        ensures same { SameTexts self.old self.new }
        ensures further { IfOk result (λ _. self.old.at < self.new.at) }
        ensures reads { ReadsPart Kind.sum self.old self.new result }
    {
        let left = self.sequence()?;
        if !self.sees(b'+') {
            return Ok(left);
        }
        self.at += 1;
        let right = self.sum()?;
        Ok(left.either(right))
    }
}

// The row of the program that the text spells over the declared actions, or why there is none.
pub fn read(text: &[u8], acts: &[Name]) -> Result<Row, ProgramFault>
    ensures names { IfOk result (λ row. row.names ≤ 15) }
    ensures one { OneProgram }
    ensures says { MatchResult result (λ row. SpellsRow text.now acts.now row) (λ f. Refused text.now acts.now f) }
    ensures one_in { OneProgramIn }
    ensures spells { MatchResult result (λ row. SpellsRowIn text.now (map spelled acts.now) row) (λ f. RefusedIn text.now (map spelled acts.now) f) }
{
    check(text)?;
    let draft = Draft::new();
    let mut reader = Reader {
        text,
        acts,
        at: 0,
        draft,
    };
    let whole = reader.sum()?;
    if reader.at < text.len() {
        return Err(reader.malformed());
    }
    let Draft {
        names,
        actions,
        follow,
    } = reader.draft;
    if names > 15 {
        return Err(ProgramFault::TooMany);
    }
    Ok(Row {
        names: names as u8,
        actions,
        nullable: whole.nullable,
        first: whole.first,
        last: whole.last,
        follow,
    })
}
