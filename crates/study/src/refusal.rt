// Why a call on a study is refused.
ghost use Rattle.std.specs.Prelude.{◌≡◌};
ghost use Rattle.study.specs.Refusals.{refusal_code};
ghost use Rattle.study.specs.TextFaults.{text_code, text_line, text_fault};
ghost use Rattle.study.specs.declared.refusal.TextFault.TheVariants.{Refused};

use document::fault::LineAt;
use lasso::scan::ScanFault;

#[derive(Clone, Copy, PartialEq, Eq, Debug)]
pub enum Refusal {
    // The study is blank.
    Blank,
    // The graph is not complete.
    Incomplete,
    // There are too few work or step places.
    Places,
    // There are more than 65,536 pairs.
    Pairs,
    // The system has no state.
    NoStates,
    // The steps are not a lasso of the document, or too many.
    NotLasso,
    // The text does not fit.
    TextRoom,
}

impl Refusal {
    // Kept: programs print these numbers, and clauses name them.
    pub fn code(self) -> u8
        ensures { result ≡ refusal_code self }
    {
        match self {
            Refusal::Blank => 7,
            Refusal::Incomplete => 8,
            Refusal::Places => 9,
            Refusal::Pairs => 10,
            Refusal::NoStates => 11,
            Refusal::NotLasso => 12,
            Refusal::TextRoom => 13,
        }
    }
}

// Why a lasso text is refused.
#[derive(Clone, Copy, PartialEq, Eq, Debug)]
pub enum TextFault {
    Refused(Refusal),
    Line(LineAt),
}

impl From<Refusal> for TextFault {
    ghost from_gives = { λ f r. r ≡ Refused f };

    fn from(fault: Refusal) -> TextFault {
        TextFault::Refused(fault)
    }
}

impl From<ScanFault> for TextFault {
    ghost from_gives = { λ f r. r ≡ text_fault f };

    fn from(fault: ScanFault) -> TextFault {
        match fault {
            ScanFault::Line(at) => TextFault::Line(at),
            ScanFault::NotLasso => TextFault::Refused(Refusal::NotLasso),
            ScanFault::Places => TextFault::Refused(Refusal::Places),
        }
    }
}

impl TextFault {
    // Kept: programs print these numbers, and clauses name them.
    pub fn code(self) -> u8
        ensures { result ≡ text_code self }
    {
        match self {
            TextFault::Refused(refusal) => refusal.code(),
            TextFault::Line(at) => at.fault.code(),
        }
    }

    // The line, or 0 where the text as a whole is refused.
    // Kept: 0 and no Option, since programs print it so.
    pub fn line(self) -> usize
        ensures { result ≡ text_line self }
    {
        match self {
            TextFault::Refused(_) => 0,
            TextFault::Line(at) => at.line,
        }
    }
}
