// Reading a document: size first, then line by line.
ghost use Rattle.std.specs.Prelude.{◌≡◌, ◌+◌, ◌<◌, ◌≤◌, length, IfErr, Err, ◌≢◌};
ghost use Rattle.document.specs.Loading.{LineRead, Loaded};
ghost use Rattle.document.specs.Coming.{HasOneOutcomeByFirst};
ghost use Rattle.document.specs.Outcomes.{HasOneOutcome};
ghost use Rattle.document.specs.LoadsAlike.{LoadsAlike};
ghost use Rattle.document.specs.Spelled.{AcceptedExactly, OneDocument};
ghost use Rattle.document.specs.Faults.{load_fault_line};
ghost use Rattle.document.specs.declared.fault.LoadFault.TheVariants.{TooLong};

use crate::declared::Declared;
use crate::document::Document;
use crate::fault::{LineAt, LineFault, LoadFault};
use crate::fields::Lines;
use crate::lines::{declaration, goal_line, is_goal};

// How far the lines have come: what is declared, or the document once its goal is read.
#[derive(Clone, Copy)]
enum Progress {
    Declaring(Declared),
    Done(Document),
}

impl Progress {
    // After one more line, or the fault of one without a line feed.
    fn with_line(self, line: Result<&[u8], LineFault>) -> Result<Progress, LineFault>
        ensures { LineRead self line.entry result }
    {
        let Progress::Declaring(declared) = self else {
            return Err(LineFault::Order);
        };
        let line = line?;
        if is_goal(line) {
            return Ok(Progress::Done(goal_line(declared, line)?));
        }
        Ok(Progress::Declaring(declaration(declared, line)?))
    }
}

// The document that the text spells, or its first fault.
#[tactic(auto, using(crate::proofs::Deciding::one_outcome, crate::proofs::LoadsAlike::loads_alike, crate::proofs::LoadsAlike::one_outcome_by_place))]
pub fn load(text: &[u8]) -> Result<Document, LoadFault>
    ensures long { 16384 < length text.now → result ≡ Err TooLong }
    ensures short { length text.now ≤ 16384 → result ≢ Err TooLong }
    ensures one { HasOneOutcomeByFirst }
    ensures alike { LoadsAlike }
    ensures one_by_place { HasOneOutcome }
    ensures exactly { AcceptedExactly }
    ensures single { OneDocument }
    ensures loaded { Loaded text.now result }
    ensures line { IfErr result (λ f. load_fault_line f ≤ length text.now + 1) }
{
    if text.len() > 16384 {
        return Err(LoadFault::TooLong);
    }
    let mut progress = Progress::Declaring(Declared::new());
    // Kept: counted here and not by `enumerate`: the number is needed after the last line too.
    let mut number = 1;
    for line in Lines::new(text) {
        progress = progress.with_line(line).map_err(|fault| LineAt {
            line: number,
            fault,
        })?;
        number += 1;
    }
    match progress {
        Progress::Done(document) => Ok(document),
        Progress::Declaring(_) => Err(LoadFault::Line(LineAt {
            line: number,
            fault: LineFault::Order,
        })),
    }
}
