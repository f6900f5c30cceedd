// Why a case ends before its answer: the engine refuses it, or the program stops.
ghost use Rattle.std.specs.Prelude.{◌≡◌};
ghost use Rattle.compare.specs.declared.fault.Fault.TheVariants.{Refused as IsRefused, Stopped};
ghost use Rattle.compare.specs.declared.fault.Refused.TheVariants.{Call, Line};
ghost use Rattle.compare.specs.declared.stop.Stop.TheVariants.{NoMemory};
ghost use Rattle.document.specs.Faults.{load_fault_code, load_fault_line, load_fault_column};
ghost use Rattle.study.specs.TextFaults.{text_code, text_line};

use crate::stop::Stop;
use document::fault::LoadFault;
use std::alloc::{AllocError, AllocFailed};
use std::fmt;
use study::refusal::{Refusal, TextFault};

// What the engine refuses.
// Kept: a text's fault by its numbers and no enum of the faults: so the clauses of the conversions below say which numbers are
// written.
#[derive(Clone, Copy)]
pub enum Refused {
    Call(Refusal),
    // A text, said with a line alone, and with a column.
    Line {
        code: u8,
        line: usize,
    },
    Column {
        code: u8,
        line: usize,
        column: usize,
    },
}

#[derive(Clone, Copy)]
pub enum Fault {
    Refused(Refused),
    Stopped(Stop),
}

impl Refused {
    // Kept: a named function beside the `From` below: of a load fault most cases tell the line, and `load` the column too.
    pub fn with_column(fault: LoadFault) -> Refused
        ensures { result ≡ Refused.Column (load_fault_code fault) (load_fault_line fault) (load_fault_column fault) }
    {
        Refused::Column {
            code: fault.code(),
            line: fault.line(),
            column: fault.column(),
        }
    }
}

impl fmt::Display for Refused {
    fn fmt<W: fmt::Write>(&self, f: &mut fmt::Formatter<W>) -> fmt::Result {
        match self {
            Refused::Call(refusal) => {
                let code = refusal.code();
                write!(f, "refused {code}")
            }
            Refused::Line { code, line } => write!(f, "refused {code} {line}"),
            Refused::Column { code, line, column } => write!(f, "refused {code} {line} {column}"),
        }
    }
}

impl From<Refused> for Fault {
    ghost from_gives = { λ r f. f ≡ IsRefused r };

    fn from(refused: Refused) -> Fault {
        Fault::Refused(refused)
    }
}

impl From<Refusal> for Fault {
    ghost from_gives = { λ r f. f ≡ IsRefused (Call r) };

    fn from(refusal: Refusal) -> Fault {
        Fault::Refused(Refused::Call(refusal))
    }
}

impl From<LoadFault> for Fault {
    ghost from_gives = { λ l f. f ≡ IsRefused (Line (load_fault_code l) (load_fault_line l)) };

    fn from(fault: LoadFault) -> Fault {
        Fault::Refused(Refused::Line {
            code: fault.code(),
            line: fault.line(),
        })
    }
}

impl From<TextFault> for Fault {
    ghost from_gives = { λ t f. f ≡ IsRefused (Line (text_code t) (text_line t)) };

    fn from(fault: TextFault) -> Fault {
        Fault::Refused(Refused::Line {
            code: fault.code(),
            line: fault.line(),
        })
    }
}

impl From<Stop> for Fault {
    ghost from_gives = { λ s f. f ≡ Stopped s };

    fn from(stop: Stop) -> Fault {
        Fault::Stopped(stop)
    }
}

impl From<AllocError> for Fault {
    ghost from_gives = { λ _ f. f ≡ Stopped NoMemory };

    fn from(error: AllocError) -> Fault {
        Fault::Stopped(Stop::from(error))
    }
}

impl<T: Drop> From<AllocFailed<T>> for Fault {
    ghost from_gives = { λ _ f. f ≡ Stopped NoMemory };

    fn from(failed: AllocFailed<T>) -> Fault {
        Fault::Stopped(Stop::from(failed))
    }
}
