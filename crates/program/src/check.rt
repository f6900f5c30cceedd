// The checker of prefixes: it reads a text byte by byte and stops where no program can go on so.
ghost use Rattle.std.specs.Prelude.{◌≡◌, MatchResult};
ghost use Rattle.program.specs.Faults.{MalformedBy};
ghost use Rattle.program.specs.Steps.{start, whole, followed, opened, shut, lengthened, lettered, stepped};
ghost use Rattle.program.specs.Text.{WellFormed};

use crate::fault::ProgramFault;

// Where the reader stands among the parts of a text.
#[derive(Clone, Copy, PartialEq, Eq, Debug)]
pub enum Place {
    // A factor is due.
    Due,
    // In a name, of which so many bytes are read.
    Name(u8),
    // Behind a star or a closing parenthesis.
    Behind,
}

// What is known behind the bytes read: how many parentheses are open, and the place.
#[derive(Clone, Copy, PartialEq, Eq, Debug)]
pub struct Prefix {
    depth: u8,
    place: Place,
}

impl Prefix {
    // Before the first byte.
    pub fn start() -> Prefix
        ensures { result ≡ start }
    {
        Prefix {
            depth: 0,
            place: Place::Due,
        }
    }

    // Whether the bytes read are a whole program.
    pub fn is_whole(self) -> bool
        ensures { result ≡ whole self }
    {
        self.place != Place::Due && self.depth == 0
    }

    // After one more character, or none where no program goes on so.
    // Kept: the byte is read as a char and matched against the literals of the syntax, as the project asks.
    pub fn step(self, c: char) -> Option<Prefix>
        ensures { result ≡ stepped self c }
    {
        match c {
            '+' | ';' => self.after_factor(Place::Due),
            '*' => self.after_factor(Place::Behind),
            '(' => self.open(),
            ')' => self.close(),
            'a'..='z' => self.letter(),
            '0'..='9' | '_' => self.naming(),
            _ => None,
        }
    }

    // The reader stands at `place` after a byte that only follows a factor.
    fn after_factor(self, place: Place) -> Option<Prefix>
        ensures { result ≡ followed place self }
    {
        match self.place {
            Place::Due => None,
            Place::Name(_) | Place::Behind => Some(Prefix { place, ..self }),
        }
    }

    fn open(self) -> Option<Prefix>
        ensures { result ≡ opened self }
    {
        match self.place {
            Place::Due if self.depth < 8 => Some(Prefix {
                depth: self.depth + 1,
                place: Place::Due,
            }),
            _ => None,
        }
    }

    fn close(self) -> Option<Prefix>
        ensures { result ≡ shut self }
    {
        match self.place {
            Place::Name(_) | Place::Behind if self.depth > 0 => Some(Prefix {
                depth: self.depth - 1,
                place: Place::Behind,
            }),
            _ => None,
        }
    }

    // A letter begins a name where a factor is due, and goes on with one elsewhere.
    fn letter(self) -> Option<Prefix>
        ensures { result ≡ lettered self }
    {
        match self.place {
            Place::Due => Some(Prefix {
                place: Place::Name(1),
                ..self
            }),
            Place::Name(_) | Place::Behind => self.naming(),
        }
    }

    fn naming(self) -> Option<Prefix>
        ensures { result ≡ lengthened self }
    {
        match self.place {
            Place::Name(len) if len < 16 => Some(Prefix {
                place: Place::Name(len + 1),
                ..self
            }),
            _ => None,
        }
    }
}

// Whether the text is a well-formed program; else the least column such that no well-formed program begins with the
// bytes up to it, or the length plus 1.
pub fn check(text: &[u8]) -> Result<(), ProgramFault>
    ensures { MatchResult result (λ _. WellFormed text.now) (λ f. MalformedBy text.now f) }
{
    let mut at = 0;
    let mut prefix = Prefix::start();
    // Kept: a labelled loop that is left with the place of the fault, as the project asks: at the text's end, or at a byte
    // that no program goes on with.
    let end = 'read: loop {
        if at >= text.len() {
            if prefix.is_whole() {
                return Ok(());
            }
            break 'read at;
        }
        match prefix.step(char::from(text[at])) {
            Some(next) => prefix = next,
            None => break 'read at,
        }
        at += 1;
    };
    Err(ProgramFault::Malformed { column: end + 1 })
}
