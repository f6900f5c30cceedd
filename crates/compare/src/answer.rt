// What a case answers, and the line that says so.
ghost use Rattle.std.specs.Prelude.{◌≡◌};
ghost use Rattle.compare.specs.Declares.{counts_of};

use crate::fault::Refused;
use document::document::Document;
use std::fmt;
use tableau::grow::Growth;
use tableau::node::Used;

// What a document declares.
#[derive(Clone, Copy)]
pub struct Counts {
    pub acts: usize,
    pub props: usize,
    pub progs: usize,
    pub forms: usize,
    pub weight: u16,
}

// What a call of grow did, and the places in use after it.
#[derive(Clone, Copy)]
pub struct Progress {
    pub growth: Growth,
    pub used: Used,
}

// How a goal was settled.
// Kept: beside the enum of `verdict`, which tells how long the text of a lasso is; this one tells whether the lasso was confirmed.
#[derive(Clone, Copy)]
pub enum How {
    // A lasso was found; `confirmed` if the engine's own judge or audit says yes to it.
    Found { confirmed: bool },
    None,
    // The tables are too small.
    Full,
}

// How a goal was settled, and the places in use then.
#[derive(Clone, Copy)]
pub struct Settled {
    pub how: How,
    pub used: Used,
}

#[derive(Drop)]
pub enum Answer {
    Loaded(Counts),
    Refused(Refused),
    Settled(Settled),
    Grown(Vec<Progress>),
    Judged(bool),
    // A lasso text was read; `same` if printing gives it again.
    Scanned {
        steps: usize,
        stem: usize,
        same: bool,
    },
    // The text of a lasso, with spaces for tabs and bars for line feeds.
    Printed(String),
}

impl From<&Document> for Counts {
    ghost from_gives = { λ d c. c ≡ counts_of d.now };

    fn from(document: &Document) -> Counts {
        let declared = document.declared();
        Counts {
            acts: declared.acts().count(),
            props: declared.props().count(),
            progs: declared.progs().count(),
            forms: declared.forms().count(),
            weight: declared.weight(),
        }
    }
}

impl fmt::Display for Counts {
    fn fmt<W: fmt::Write>(&self, f: &mut fmt::Formatter<W>) -> fmt::Result {
        let Counts {
            acts,
            props,
            progs,
            forms,
            weight,
        } = *self;
        write!(f, "ok {acts} {props} {progs} {forms} {weight}")
    }
}

impl fmt::Display for Progress {
    fn fmt<W: fmt::Write>(&self, f: &mut fmt::Formatter<W>) -> fmt::Result {
        let Growth { units, report } = self.growth;
        let Used { nodes, edges } = self.used;
        write!(f, "{units}:{report}:{nodes}:{edges}")
    }
}

impl fmt::Display for Settled {
    fn fmt<W: fmt::Write>(&self, f: &mut fmt::Formatter<W>) -> fmt::Result {
        let Used { nodes, edges } = self.used;
        match self.how {
            How::None => write!(f, "none {nodes} {edges}"),
            How::Full => write!(f, "full {nodes} {edges}"),
            How::Found { confirmed: true } => write!(f, "found {nodes} {edges} yes"),
            How::Found { confirmed: false } => write!(f, "found {nodes} {edges} NO"),
        }
    }
}

// What each call of grow did, parted by spaces.
fn show_grown<W: fmt::Write>(f: &mut fmt::Formatter<W>, calls: &[Progress]) -> fmt::Result {
    for (i, call) in calls.iter().enumerate() {
        if i > 0 {
            write!(f, " ")?;
        }
        write!(f, "{call}")?;
    }
    Ok(())
}

impl fmt::Display for Answer {
    fn fmt<W: fmt::Write>(&self, f: &mut fmt::Formatter<W>) -> fmt::Result {
        match self {
            Answer::Loaded(counts) => write!(f, "{counts}"),
            Answer::Refused(refused) => write!(f, "{refused}"),
            Answer::Settled(settled) => write!(f, "{settled}"),
            Answer::Grown(calls) => show_grown(f, calls),
            Answer::Judged(true) => write!(f, "yes"),
            Answer::Judged(false) => write!(f, "no"),
            Answer::Scanned {
                steps,
                stem,
                same: true,
            } => write!(f, "{steps} {stem} same"),
            Answer::Scanned {
                steps,
                stem,
                same: false,
            } => write!(f, "{steps} {stem} OTHER"),
            Answer::Printed(text) => {
                let len = text.len();
                write!(f, "{len} {text}")
            }
        }
    }
}
