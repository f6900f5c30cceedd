// Writes a line for each piece of work: what came out, or how long it took.
ghost use Rattle.std.specs.Prelude.{◌≡◌, if◌then◌else◌, IfOk};
ghost use Rattle.bench.specs.Rounds.{Ran};

use std::alloc::Global;
use std::time::Instant;
use std::{fmt, io};

#[derive(Drop)]
pub struct Meter<'a> {
    rt: &'a HostRuntime,
    timed: bool,
    // Microseconds of the fastest round so far, and of the line before.
    best: Option<u64>,
    before: Option<u64>,
}

// Microseconds in milliseconds.
fn show_time(rt: &HostRuntime, micros: u64) -> io::Result<()> {
    let whole = micros / 1000;
    let rest = micros % 1000;
    print!(rt; "{whole}.{rest:03} ms")
}

// How many times the work before it took, where that took any time.
fn show_ratio(rt: &HostRuntime, micros: u64, before: u64) -> io::Result<()> {
    let Some(hundredths) = micros.saturating_mul(100).checked_div(before) else {
        return Ok(());
    };
    let whole = hundredths / 100;
    let rest = hundredths % 100;
    print!(rt; "\t{whole}.{rest:02} times")
}

impl<'a> Meter<'a> {
    pub fn new(rt: &'a HostRuntime, timed: bool) -> Meter<'a>
        ensures { result.timed ≡ timed }
    {
        Meter {
            rt,
            timed,
            best: None,
            before: None,
        }
    }

    pub fn is_timed(&self) -> bool
        ensures { result ≡ self.now.timed }
    {
        self.timed
    }

    pub fn heap(&self) -> Global {
        self.rt.alloc()
    }

    // Rounds of each piece of work: the fastest counts.
    pub fn rounds(&self) -> u8
        ensures { result ≡ (if self.now.timed then 5 else 1) }
    {
        if self.timed { 5 } else { 1 }
    }

    // Begins a series.
    pub fn series(&mut self, name: &str) -> io::Result<()> {
        self.before = None;
        println!(self.rt; "{name}")
    }

    // Does the work of a round.
    pub fn round<T: Drop, W: FnMut() -> T>(&mut self, work: &mut W) -> io::Result<T>
        requires { W.IsAlwaysCallable work.old }
        ensures again { W.IsAlwaysCallable work.new }
        ensures done { IfOk result (λ t. W.step work.old t work.new) }
        ensures same { self.new.timed ≡ self.old.timed }
    {
        let start = Instant::now(self.rt)?;
        let done = work();
        let micros = start.elapsed(self.rt)?.as_micros();
        let micros = u64::try_from(micros).unwrap_or(u64::MAX);
        self.best = Some(self.best.map_or(micros, |best| best.min(micros)));
        Ok(done)
    }

    // Does the work in each round, and answers what comes out of the last.
    pub fn piece<T: Drop, W: FnMut() -> T>(&mut self, mut work: W) -> io::Result<T>
        requires { W.IsAlwaysCallable work }
        ensures { IfOk result (λ t. (last : W) × Ran (λ a t b. W.step a t b) work (if self.old.timed then 5 else 1) t last) }
    {
        let mut done = self.round(&mut work)?;
        for _ in 1..self.rounds() {
            done = self.round(&mut work)?;
        }
        Ok(done)
    }

    // Ends a piece of work of a size.
    pub fn line<A: fmt::Display + Drop>(&mut self, size: usize, answer: A) -> io::Result<()> {
        print!(self.rt; "\t{size}\t")?;
        if self.timed {
            if let Some(best) = self.best {
                show_time(self.rt, best)?;
                if let Some(before) = self.before {
                    show_ratio(self.rt, best, before)?;
                }
            }
            self.before = self.best.take();
        } else {
            print!(self.rt; "{answer}")?;
        }
        println!(self.rt; "")
    }
}
