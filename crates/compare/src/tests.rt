// Examples: entries in a row, and the tables of a system, out of a file of cases; and a found lasso put to a judge.
use crate::answer::How;
use crate::cursor::Cursor;
use crate::settle::settled;
use crate::tables::Tables;
use lasso::step::Step;
use search::found::Found;
use std::test::Fail;
use tableau::node::Used;

#[test]
fn lists(rt: HostRuntime) -> Result<(), Fail> {
    let mut cursor = Cursor::new(b"5 7 9 ");
    let numbers = cursor.list(rt.alloc(), 3, |cursor: &mut Cursor| cursor.number::<u64>())?;
    assert_eq!(rt; numbers.as_slice(), [5, 7, 9].as_slice());
    assert!(rt; cursor.is_at_end());
    Ok(())
}

#[test]
fn tables_of_two(rt: HostRuntime) -> Result<(), Fail> {
    let mut cursor = Cursor::new(b"2 1 1 0 1 0 1 1 1 1 0 0 0 0 ");
    let tables = Tables::read(rt.alloc(), &mut cursor)?;
    assert!(rt; matches!(tables, Tables::Two(_, _)));
    assert!(rt; cursor.is_at_end());
    Ok(())
}

#[test]
fn settled_by_a_judge(rt: HostRuntime) -> Result<(), Fail> {
    let used = Used { nodes: 2, edges: 3 };
    let steps = [Step::default(); 4];
    let found = Some(Found { len: 2, stem: 1 });
    let settled = settled(rt.alloc(), used, found, &steps, |lasso, stem, work| {
        Ok(lasso.len() == 2 && stem == 1 && work.len() == 8)
    });
    let settled = settled.map_err(|_| Fail::new("not settled"))?;
    assert!(rt; matches!(settled.how, How::Found { confirmed: true }));
    assert_eq!(rt; settled.used, used);
    Ok(())
}
