// Why a text is no program of a document.
#[derive(Clone, Copy, PartialEq, Eq, Debug)]
pub enum ProgramFault {
    // No well-formed program begins with the bytes up to this column, counted from 1.
    Malformed { column: usize },
    // An action name is not declared.
    Undeclared,
    // There are more than 15 action names.
    TooMany,
}
