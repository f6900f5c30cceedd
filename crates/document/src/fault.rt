// Why a text is no document: the program's fault inside the line's, and that inside the load's.
ghost use Rattle.std.specs.Prelude.{◌≡◌};
ghost use Rattle.document.specs.declared.fault.LineFault.TheVariants.{Program};
ghost use Rattle.document.specs.declared.fault.LoadFault.TheVariants.{Line};
ghost use Rattle.document.specs.Faults.{program_fault_code, line_fault_code, program_fault_column, line_fault_column, load_fault_code, load_fault_line, load_fault_column};

use program::fault::ProgramFault;

#[derive(Clone, Copy, PartialEq, Eq, Debug)]
pub enum LineFault {
    // An unknown kind, a wrong number of fields, a malformed field that is no program, or no line feed at the end.
    Shape,
    // The program's own fault.
    Program(ProgramFault),
    // A name is repeated in its kind, or not declared before.
    Naming,
    // A limit is passed.
    Limit,
    // A goal before any action, no goal, or a line after the goal.
    Order,
}

// A line's fault, with the number of the line, counted from 1.
#[derive(Clone, Copy, PartialEq, Eq, Debug)]
pub struct LineAt {
    pub line: usize,
    pub fault: LineFault,
}

#[derive(Clone, Copy, PartialEq, Eq, Debug)]
pub enum LoadFault {
    // The text is above 16,384 bytes.
    TooLong,
    Line(LineAt),
}

impl From<ProgramFault> for LineFault {
    ghost from_gives = { λ f r. r ≡ Program f };

    fn from(fault: ProgramFault) -> LineFault {
        LineFault::Program(fault)
    }
}

impl From<LineAt> for LoadFault {
    ghost from_gives = { λ f r. r ≡ Line f };

    fn from(fault: LineAt) -> LoadFault {
        LoadFault::Line(fault)
    }
}

// Kept: the numbers of the codes, and 0 for no line and no column, are what programs print.
fn program_code(fault: ProgramFault) -> u8
    ensures { result ≡ program_fault_code fault }
{
    match fault {
        ProgramFault::Malformed { column: _ } => 3,
        ProgramFault::Undeclared => 4,
        ProgramFault::TooMany => 5,
    }
}

fn program_column(fault: ProgramFault) -> usize
    ensures { result ≡ program_fault_column fault }
{
    if let ProgramFault::Malformed { column } = fault {
        column
    } else {
        0
    }
}

impl LineFault {
    pub fn code(self) -> u8
        ensures { result ≡ line_fault_code self }
    {
        match self {
            LineFault::Shape => 2,
            LineFault::Program(fault) => program_code(fault),
            LineFault::Naming => 4,
            LineFault::Limit => 5,
            LineFault::Order => 6,
        }
    }

    // The column of a malformed program, else 0.
    pub fn column(self) -> usize
        ensures { result ≡ line_fault_column self }
    {
        if let LineFault::Program(fault) = self {
            program_column(fault)
        } else {
            0
        }
    }
}

impl LoadFault {
    pub fn code(self) -> u8
        ensures { result ≡ load_fault_code self }
    {
        match self {
            LoadFault::TooLong => 1,
            LoadFault::Line(at) => at.fault.code(),
        }
    }

    // The line, or 0 for a text that is too long.
    pub fn line(self) -> usize
        ensures { result ≡ load_fault_line self }
    {
        match self {
            LoadFault::TooLong => 0,
            LoadFault::Line(at) => at.line,
        }
    }

    pub fn column(self) -> usize
        ensures { result ≡ load_fault_column self }
    {
        match self {
            LoadFault::TooLong => 0,
            LoadFault::Line(at) => at.fault.column(),
        }
    }
}
