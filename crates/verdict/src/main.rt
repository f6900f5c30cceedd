// Reads a document from standard input, grows its goal's graph to the end, and writes the verdict with its lasso.
#![tactic(auto)]

ghost use Rattle.std.specs.Prelude.{◌≡◌};
ghost use Rattle.document.specs.Faults.{load_fault_code, load_fault_line};
ghost use Rattle.study.specs.Refusals.{refusal_code};
ghost use Rattle.verdict.specs.declared.Fault.TheVariants.{Refused as IsRefused, NoMemory};

use document::fault::LoadFault;
use lasso::step::Step;
use std::alloc::{AllocError, Global};
use std::io::{Read, Write};
use std::{fmt, io};
use study::refusal::Refusal;
use study::study::Study;
use tableau::grow::Report;
use tableau::node::{Edge, Node, Used};

// Places of the tables.
const NODES: usize = 512;

const EDGES: usize = 4096;

// Bytes that a lasso's text may have.
const TEXT: usize = 65536;

// How a goal is settled.
#[derive(Clone, Copy)]
enum Settled {
    // A lasso is found; its text has so many bytes.
    Found { len: usize },
    None,
    // The tables are too small.
    Full,
}

// How the goal of a document is settled, and the places in use.
#[derive(Clone, Copy)]
struct Decided {
    how: Settled,
    used: Used,
}

// Why there is nothing to decide: the refusal's number, and the line that is refused or 0.
// Kept: the two numbers and no enum of the two faults: so the clauses of the conversions below say which numbers are written.
#[derive(Clone, Copy)]
struct Refused {
    code: u8,
    line: usize,
}

// Why the program says no verdict.
enum Fault {
    Refused(Refused),
    NoMemory(AllocError),
}

impl fmt::Display for Settled {
    fn fmt<W: fmt::Write>(&self, f: &mut fmt::Formatter<W>) -> fmt::Result {
        match self {
            Settled::Found { len: _ } => write!(f, "found"),
            Settled::None => write!(f, "none"),
            Settled::Full => write!(f, "full"),
        }
    }
}

impl fmt::Display for Decided {
    fn fmt<W: fmt::Write>(&self, f: &mut fmt::Formatter<W>) -> fmt::Result {
        let how = self.how;
        let Used { nodes, edges } = self.used;
        write!(f, "verdict\t{how}\t{nodes}\t{edges}")
    }
}

impl fmt::Display for Refused {
    fn fmt<W: fmt::Write>(&self, f: &mut fmt::Formatter<W>) -> fmt::Result {
        let Refused { code, line } = *self;
        write!(f, "refused\t{code}\t{line}")
    }
}

impl From<Refusal> for Refused {
    ghost from_gives = { λ f r. (r.code ≡ refusal_code f) × (r.line ≡ 0) };

    fn from(refusal: Refusal) -> Refused {
        Refused {
            code: refusal.code(),
            line: 0,
        }
    }
}

impl From<LoadFault> for Refused {
    ghost from_gives = { λ f r. (r.code ≡ load_fault_code f) × (r.line ≡ load_fault_line f) };

    fn from(fault: LoadFault) -> Refused {
        Refused {
            code: fault.code(),
            line: fault.line(),
        }
    }
}

impl From<Refused> for Fault {
    ghost from_gives = { λ r f. f ≡ IsRefused r };

    fn from(refused: Refused) -> Fault {
        Fault::Refused(refused)
    }
}

impl From<AllocError> for Fault {
    ghost from_gives = { λ e f. f ≡ NoMemory e };

    fn from(error: AllocError) -> Fault {
        Fault::NoMemory(error)
    }
}

// Grows to the end and decides; a found lasso's text stands in the first bytes of `text`.
fn settle(
    study: &mut Study,
    work: &mut [u64],
    steps: &mut [Step],
    text: &mut [u8],
) -> Result<Settled, Refusal> {
    if study.grow(u64::MAX)?.report != Report::Complete {
        return Ok(Settled::Full);
    }
    let Some(found) = study.decide(work, steps)? else {
        return Ok(Settled::None);
    };
    let lasso = steps.get(..found.len).ok_or(Refusal::Places)?;
    let len = study.print(lasso, found.stem, text)?;
    Ok(Settled::Found { len })
}

// All that the program computes of a document, over the lent places.
fn decide(
    study: &mut Study,
    document: &[u8],
    work: &mut [u64],
    steps: &mut [Step],
    text: &mut [u8],
) -> Result<Decided, Refused> {
    study.load(document)?;
    let how = settle(study, work, steps, text)?;
    Ok(Decided {
        how,
        used: study.used(),
    })
}

// The same, over places of its own.
fn outcome(heap: Global, document: &[u8], text: &mut [u8]) -> Result<Decided, Fault> {
    let mut nodes = vec![in heap; Node::blank(); NODES]?;
    let mut edges = vec![in heap; Edge::blank(); EDGES]?;
    let mut work = vec![in heap; 0u64; 4 * NODES]?;
    let mut steps = vec![in heap; Step::default(); 2 * NODES]?;
    let mut study = Study::new(&mut nodes, &mut edges);
    Ok(decide(&mut study, document, &mut work, &mut steps, text)?)
}

fn main(rt: HostRuntime) -> io::Result<()> {
    let heap = rt.alloc();
    let mut document = Vec::new(heap);
    rt.stdin().read_to_end(&mut document)?;
    let mut text = vec![in heap; 0u8; TEXT]?;
    match outcome(heap, &document, &mut text) {
        Err(Fault::NoMemory(error)) => Err(error.into()),
        Err(Fault::Refused(refused)) => println!(rt; "{refused}"),
        Ok(decided) => {
            println!(rt; "{decided}")?;
            if let Settled::Found { len } = decided.how {
                rt.stdout().write_all(&text[..len.min(text.len())])?;
            }
            Ok(())
        }
    }
}
