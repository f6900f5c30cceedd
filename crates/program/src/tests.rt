// Examples: the automaton of a program, and the columns of malformed texts.
use crate::automaton::Automaton;
use crate::check::check as check_text;
use crate::fault::ProgramFault;
use crate::name::Name;
use crate::read::read;
use std::test::Fail;

// The column of the fault, or 0.
fn column(text: &[u8]) -> usize {
    match check_text(text) {
        Err(ProgramFault::Malformed { column }) => column,
        _ => 0,
    }
}

#[test]
fn leads_from_zero(rt: HostRuntime) -> Result<(), Fail> {
    let acts = [Name::read(b"a").ok_or("a")?, Name::read(b"b").ok_or("b")?];
    let row = read(b"(a+b)*;a", &acts)?;
    let automaton = Automaton::new(&row);
    assert_eq!(rt; automaton.states(), 4);
    assert_eq!(rt; automaton.targets(0, 0), 0b1010);
    assert_eq!(rt; automaton.targets(0, 1), 0b0100);
    assert_eq!(rt; automaton.finals(), 0b1000);
    Ok(())
}

#[test]
fn refuses(rt: HostRuntime) -> Result<(), Fail> {
    let acts = [Name::read(b"a").ok_or("a")?];
    assert!(rt; matches!(read(b"a;b", &acts), Err(ProgramFault::Undeclared)));
    assert!(rt;
        matches!(
            read(b"a;a;a;a;a;a;a;a;a;a;a;a;a;a;a;a", &acts),
            Err(ProgramFault::TooMany)
        )
    );
    Ok(())
}

#[test]
fn columns(rt: HostRuntime) {
    assert_eq!(rt; column(b"(a+b)*;a"), 0);
    assert_eq!(rt; column(b""), 1);
    assert_eq!(rt; column(b"+"), 1);
    assert_eq!(rt; column(b"1a"), 1);
    assert_eq!(rt; column(b"a)"), 2);
    assert_eq!(rt; column(b"()"), 2);
    assert_eq!(rt; column(b"a b"), 2);
    assert_eq!(rt; column(b"a+"), 3);
    assert_eq!(rt; column(b"(a"), 3);
    assert_eq!(rt; column(b"a;;b"), 3);
    assert_eq!(rt; column(b"a*b"), 3);
    assert_eq!(rt; column(b"(((((((((a"), 9);
    assert_eq!(rt; column(b"abcdefghijklmnopq"), 17);
}
