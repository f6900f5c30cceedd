// The words of a document: what a line begins with, and the kinds of forms.
ghost use Rattle.std.specs.Prelude.{◌≡◌, ◌≤◌};
ghost use Rattle.document.specs.Kinds.{ReadsWord, ReadsKind, operands_of};

use crate::fault::LineFault;

// What a line begins with.
#[derive(Clone, Copy, PartialEq, Eq, Debug)]
pub enum Word {
    Act,
    Prop,
    Prog,
    Form,
    Goal,
}

impl TryFrom<&[u8]> for Word {
    type Error = LineFault;

    ghost try_from_gives = { λ word r. ReadsWord word.now r };

    fn try_from(word: &[u8]) -> Result<Word, LineFault> {
        match word {
            b"act" => Ok(Word::Act),
            b"prop" => Ok(Word::Prop),
            b"prog" => Ok(Word::Prog),
            b"form" => Ok(Word::Form),
            b"goal" => Ok(Word::Goal),
            _ => Err(LineFault::Shape),
        }
    }
}

// The kinds of forms.
#[derive(Clone, Copy, PartialEq, Eq, Debug)]
pub enum Kind {
    True,
    Prop,
    Not,
    And,
    Or,
    Next,
    Until,
}

// The kind that the word names.
impl TryFrom<&[u8]> for Kind {
    type Error = LineFault;

    ghost try_from_gives = { λ word r. ReadsKind word.now r };

    fn try_from(word: &[u8]) -> Result<Kind, LineFault> {
        match word {
            b"true" => Ok(Kind::True),
            b"prop" => Ok(Kind::Prop),
            b"not" => Ok(Kind::Not),
            b"and" => Ok(Kind::And),
            b"or" => Ok(Kind::Or),
            b"next" => Ok(Kind::Next),
            b"until" => Ok(Kind::Until),
            _ => Err(LineFault::Shape),
        }
    }
}

impl Kind {
    pub fn operands(self) -> usize
        ensures is { result ≡ operands_of self }
        ensures few { result ≤ 3 }
    {
        match self {
            Kind::True => 0,
            Kind::Prop | Kind::Not => 1,
            Kind::And | Kind::Or | Kind::Next => 2,
            Kind::Until => 3,
        }
    }
}
