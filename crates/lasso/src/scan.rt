// Reading a lasso's text: first every line is checked and counted, then the steps are written.
ghost use Rattle.std.specs.Prelude.{◌≡◌, ℕ, ◌+◌, ◌^◌, ◌<◌, ◌≤◌, List, length, IfOk, MatchResult, OnErr};
ghost use Rattle.document.specs.Faults.{line_fault_code};
ghost use Rattle.document.specs.Kept.{names_of};
ghost use Rattle.lasso.specs.DeclaredNames.{acts_of, props_of};
ghost use Rattle.document.specs.declared.fault.LineFault.TheVariants.{Shape};
ghost use Rattle.lasso.specs.LassoTexts.{joined};
ghost use Rattle.lasso.specs.declared.scan.ScanFault.TheVariants.{Line};
ghost use Rattle.lasso.specs.MarkFields.{AddsMark, RefusesMark, MarksRead, NoMarks};
ghost use Rattle.document.specs.Texts.{pieces};
ghost use Rattle.lasso.specs.LassoLines.{Faulty, Reads, AllRead, FirstFault};
ghost use Rattle.lasso.specs.ScanLaws.{HasOneOutcome, ScanOfPrint, PrintOfScan, OneLasso, LoadedApart};
ghost use Rattle.lasso.specs.Scans.{ScannedAs};
ghost use Rattle.lasso.specs.Tallies.{counted, Surveyed, ReadsNext, RefusedLine, FilledFrom};

use crate::decimal::read_state;
use crate::part::Part;
use crate::step::Step;
use crate::valid::MOST_STEPS;
use document::declared::Declared;
use document::document::Document;
use document::fault::{LineAt, LineFault};
use document::fields::{Lines, field};
use document::lines::counted;
use document::names::Names;
use program::name::is_name;

// Why a text is no lasso of a document.
#[derive(Clone, Copy, PartialEq, Eq, Debug)]
pub enum ScanFault {
    Line(LineAt),
    // No loop line, a stem line after a loop line, or too many lines.
    NotLasso,
    // There are fewer places than steps.
    Places,
}

impl From<LineAt> for ScanFault {
    ghost from_gives = { λ f r. r ≡ Line f };

    fn from(fault: LineAt) -> ScanFault {
        ScanFault::Line(fault)
    }
}

// A lasso that was read: how many steps it has, and how many of them are its stem.
// Kept: beside `search::found::Found`, which tells of the entries of a path; the search knows no steps.
#[derive(Clone, Copy, PartialEq, Eq, Debug)]
pub struct Scanned {
    pub steps: usize,
    pub stem: usize,
}

// The marks of a field.
// Kept: that there are at most 16 propositions is required here and where marks are written: names of all kinds are one type,
// of up to 64.
#[derive(Clone, Copy, PartialEq, Eq, Debug)]
struct Marks {
    // None once a name is not declared
    mask: Option<u16>,
    // The least proposition that may come next
    floor: usize,
}

impl Marks {
    // With one name more: declared propositions stand in their order.
    fn with(self, props: &Names, name: &[u8]) -> Result<Marks, LineFault>
        requires { props.now.count ≤ 16 }
        ensures { MatchResult result (λ m. AddsMark (names_of props.now) name.now self m) (λ f. (f ≡ Shape) × RefusesMark (names_of props.now) name.now self) }
    {
        if !is_name(name) {
            return Err(LineFault::Shape);
        }
        match props.find(name) {
            None => Ok(Marks {
                mask: None,
                floor: self.floor,
            }),
            Some(p) if p < self.floor => Err(LineFault::Shape),
            Some(p) => Ok(Marks {
                mask: self.mask.map(|mask| mask | (1 << p)),
                floor: p + 1,
            }),
        }
    }
}

// The marks of a field: names joined by commas, or a dash.
fn read_marks(props: &Names, text: &[u8]) -> Result<Marks, LineFault>
    requires { props.now.count ≤ 16 }
    ensures { MatchResult result (λ m. (names : List (List ℕ)) × (text.now ≡ joined names) × MarksRead (names_of props.now) names m) (λ f. (f ≡ Shape) × NoMarks (names_of props.now) text.now) }
{
    let mut marks = Marks {
        mask: Some(0),
        floor: 0,
    };
    if text == b"-".as_slice() {
        return Ok(marks);
    }
    for name in text.split(|b| *b == b',') {
        marks = marks.with(props, name)?;
    }
    Ok(marks)
}

// The step of a line, and the part that it belongs to.
#[derive(Clone, Copy, PartialEq, Eq, Debug)]
struct StepLine {
    step: Step,
    part: Part,
}

// The step of a line without its line feed.
fn read_line(declared: &Declared, line: &[u8]) -> Result<StepLine, LineFault>
    ensures { MatchResult result (λ s. Reads (acts_of declared.now) (props_of declared.now) line.now s) (λ f. Faulty (acts_of declared.now) (props_of declared.now) line.now (line_fault_code f)) }
{
    counted(line, 4)?;
    let part = Part::try_from(field(line, 0))?;
    let name = field(line, 1);
    if !is_name(name) {
        return Err(LineFault::Shape);
    }
    let state = read_state(field(line, 2)).ok_or(LineFault::Shape)?;
    let read = read_marks(declared.props(), field(line, 3))?;
    let action = declared.acts().find(name).ok_or(LineFault::Naming)?;
    let marks = read.mask.ok_or(LineFault::Naming)?;
    let step = Step {
        state,
        action: action as u8,
        marks,
    };
    Ok(StepLine { step, part })
}

// The step of the next line, or the fault of one without a line feed.
fn read_next(declared: &Declared, line: Result<&[u8], LineFault>) -> Result<StepLine, LineFault>
    ensures { MatchResult result (λ s. ReadsNext (acts_of declared.now) (props_of declared.now) line.entry s) (λ f. RefusedLine (acts_of declared.now) (props_of declared.now) line.entry (line_fault_code f)) }
{
    read_line(declared, line?)
}

// The lines counted so far.
#[derive(Clone, Copy, PartialEq, Eq, Debug)]
struct Tally {
    steps: usize,
    // None once a stem line follows a loop line
    stem: Option<usize>,
}

impl Tally {
    // With one line more.
    fn with(self, part: Part) -> Tally
        requires { self.steps < 2 ^ 63 }
        ensures steps { result.steps ≡ self.steps + 1 }
        ensures is { result ≡ counted part self }
    {
        let stem = match (part, self.stem) {
            (Part::Loop, stem) => stem,
            (Part::Stem, Some(stem)) if stem == self.steps => Some(stem + 1),
            (Part::Stem, _) => None,
        };
        Tally {
            steps: self.steps + 1,
            stem,
        }
    }
}

// Checks every line.
fn survey(declared: &Declared, text: &[u8]) -> Result<Tally, LineAt>
    ensures { MatchResult result (λ t. Surveyed (acts_of declared.now) (props_of declared.now) text.now t) (λ f. FirstFault (acts_of declared.now) (props_of declared.now) 1 (pieces 10 text.now) (line_fault_code f.fault) f.line) }
{
    let mut seen = Tally {
        steps: 0,
        stem: Some(0),
    };
    for line in Lines::new(text) {
        let number = seen.steps + 1;
        let read = read_next(declared, line).map_err(|fault| LineAt {
            line: number,
            fault,
        })?;
        seen = seen.with(read.part);
    }
    Ok(seen)
}

// Writes the steps of a text that was checked.
fn fill(declared: &Declared, text: &[u8], steps: &mut [Step])
    ensures { (ss : List StepLine) → AllRead (acts_of declared.now) (props_of declared.now) (pieces 10 text.now) ss → length ss ≤ length steps.old → FilledFrom (acts_of declared.now) (props_of declared.now) text.now steps.old steps.new }
{
    // Kept: `next` of the lines beside `iter_mut` and no `zip` of both: what such a zip has written is not known after it.
    let mut lines = Lines::new(text);
    for place in steps.iter_mut() {
        let Some(line) = lines.next() else {
            return;
        };
        if let Ok(read) = read_next(declared, line) {
            *place = read.step;
        }
    }
}

// The lasso that the text spells, in the first steps.
#[tactic(auto, using(crate::proofs::EveryText::text_laws))]
pub fn scan(document: &Document, text: &[u8], steps: &mut [Step]) -> Result<Scanned, ScanFault>
    ensures untouched { OnErr result (steps.new ≡ steps.old) }
    ensures outcome { ScannedAs (acts_of document.now.declared) (props_of document.now.declared) text.now steps.old steps.new result }
    ensures laws { (HasOneOutcome) × ((ScanOfPrint) × ((PrintOfScan) × ((OneLasso) × (LoadedApart)))) }
    ensures bounds { IfOk result (λ s. (s.stem < s.steps) × (s.steps ≤ 131072) × (s.steps ≤ length steps.old)) }
{
    let declared = document.declared();
    let seen = survey(&declared, text)?;
    let stem = seen.stem.ok_or(ScanFault::NotLasso)?;
    if stem == seen.steps || seen.steps > MOST_STEPS {
        return Err(ScanFault::NotLasso);
    }
    if seen.steps > steps.len() {
        return Err(ScanFault::Places);
    }
    fill(&declared, text, &mut steps[..seen.steps]);
    Ok(Scanned {
        steps: seen.steps,
        stem,
    })
}
