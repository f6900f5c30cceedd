// Examples: untils on short lassos, and lasso texts.
use crate::judge::judge;
use crate::lasso::Lasso;
use crate::print::print;
use crate::scan::{ScanFault, scan};
use crate::step::Step;
use crate::valid::is_lasso;
use document::document::Document;
use document::load::load;
use std::process::Abort;
use std::test::Fail;

const BARE: Step = Step {
    state: 0,
    action: 0,
    marks: 0,
};

const MARKED: Step = Step {
    state: 0,
    action: 0,
    marks: 1,
};

// The verdict on a lasso without a stem, of up to four steps.
fn verdict(text: &[u8], steps: &[Step]) -> Result<bool, Fail> {
    let document = load(text)?;
    let lasso = Lasso::of(&document, steps, 0).ok_or("no lasso")?;
    let mut work = [0; 8];
    if steps.len() > 4 {
        return Err(Fail::new("no lasso"));
    }
    Ok(judge(&document, lasso, &mut work))
}

#[test]
fn every_second_step(rt: HostRuntime) -> Result<(), Fail> {
    let text =
        b"act\ta\nprop\tp\nprog\tx\t(a;a)*\nform\tt\ttrue\nform\tq\tprop\tp\nform\tu\tuntil\tt\tx\tq\ngoal\tu\n";
    assert_eq!(rt; verdict(text, &[BARE, MARKED])?, false);
    assert_eq!(rt; verdict(text, &[BARE, MARKED, BARE])?, true);
    Ok(())
}

#[test]
fn true_now(rt: HostRuntime) -> Result<(), Fail> {
    let any =
        b"act\ta\nprog\tx\ta*\nform\tg\ttrue\nform\tf\tnot\tg\nform\tu\tuntil\tf\tx\tg\ngoal\tu\n";
    let once =
        b"act\ta\nprog\tx\ta\nform\tg\ttrue\nform\tf\tnot\tg\nform\tu\tuntil\tf\tx\tg\ngoal\tu\n";
    assert_eq!(rt; verdict(any, &[BARE])?, true);
    assert_eq!(rt; verdict(once, &[BARE])?, false);
    Ok(())
}

// A document with two actions and two propositions.
fn recorder() -> Result<Document, Fail> {
    let document = load(
        b"act\tarm\nact\tstop\nprop\trecording\nprop\tsaved\nform\tyes\ttrue\ngoal\tyes\n",
    )?;
    Ok(document)
}

#[test]
fn scanned_and_printed(rt: HostRuntime) -> Result<(), Fail> {
    let document = recorder()?;
    let text = b"stem\tarm\t0\t-\nloop\tstop\t3\trecording\nloop\tarm\t12\trecording,saved\n";
    let mut steps = [BARE; 3];
    let read = scan(&document, text, &mut steps)?;
    assert_eq!(rt; read.steps, 3);
    assert_eq!(rt; read.stem, 1);
    assert_eq!(rt; steps[2].state, 12);
    assert_eq!(rt; steps[2].marks, 3);
    if !is_lasso(&document, &steps, read.stem) {
        return Err(Fail::new("no lasso"));
    }
    let mut copy = [0; 63];
    let len = print(&document, &steps, read.stem, &mut copy).ok_or("no room")?;
    assert_eq!(rt; len, text.len());
    assert!(rt; copy == *text);
    Ok(())
}

// Scans a text into two places that is refused with this code and line.
fn refused(rt: &impl Abort, text: &[u8], code: u8, line: usize) -> Result<(), Fail> {
    let document = recorder()?;
    let mut steps = [BARE; 2];
    match scan(&document, text, &mut steps) {
        Ok(_) => Err(Fail::new("taken")),
        Err(ScanFault::Line(at)) => {
            assert_eq!(rt; at.fault.code(), code);
            assert_eq!(rt; at.line, line);
            Ok(())
        }
        Err(ScanFault::NotLasso) => {
            assert_eq!(rt; code, 12);
            Ok(())
        }
        Err(ScanFault::Places) => {
            assert_eq!(rt; code, 9);
            Ok(())
        }
    }
}

#[test]
fn refused_texts(rt: HostRuntime) -> Result<(), Fail> {
    refused(&rt, b"", 12, 0)?;
    refused(&rt, b"loop\tarm\t0\t-", 2, 1)?;
    refused(&rt, b"loop\tarm\t007\t-\n", 2, 1)?;
    refused(&rt, b"loop\tarm\t4096\t-\n", 2, 1)?;
    refused(&rt, b"loop\tarm\t0\tsaved,idle,recording\n", 2, 1)?;
    refused(&rt, b"loop\tarm\t0\tidle,idle\n", 4, 1)?;
    refused(&rt, b"stem\tarm\t4095\t-\nloop\tgo\t0\t-\n", 4, 2)?;
    refused(&rt, b"loop\tarm\t0\t-\nstem\tarm\t0\t-\n", 12, 0)?;
    refused(
        &rt,
        b"stem\tarm\t0\t-\nstem\tarm\t0\t-\nloop\tarm\t0\t-\n",
        9,
        0,
    )
}
