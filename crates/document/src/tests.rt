// Refusals at their boundaries, on both sides.
ghost use Rattle.std.specs.Prelude.{◌≤◌};

use crate::load::load;
use std::process::Abort;
use std::test::Fail;

fn taken(text: &[u8]) -> Result<(), Fail> {
    load(text)?;
    Ok(())
}

fn refused(rt: &impl Abort, text: &[u8], code: u8, line: usize) -> Result<(), Fail> {
    match load(text) {
        Ok(_) => Err(Fail::new("taken")),
        Err(fault) => {
            assert_eq!(rt; fault.code(), code);
            assert_eq!(rt; fault.line(), line);
            Ok(())
        }
    }
}

// A text that is put together, as far as there is room.
// Kept: a buffer and a length, since nothing in this crate allocates.
#[derive(Clone, Copy)]
struct Page {
    bytes: [u8; 1024],
    len: usize,
    ghost within: { len ≤ 1024 },
}

impl Page {
    fn new() -> Page {
        Page {
            bytes: [0; 1024],
            len: 0,
        }
    }

    fn put(&mut self, text: &[u8]) {
        for (place, b) in self.bytes[self.len..].iter_mut().zip(text) {
            *place = *b;
        }
        self.len += text.len().min(1024 - self.len);
    }

    // Lines that declare so many names, each two letters between `before` and `after`.
    fn many(&mut self, count: usize, before: &[u8], after: &[u8]) {
        for k in 0..count {
            self.put(before);
            self.put(&[b'a' + (k / 16 % 16) as u8, b'a' + (k % 16) as u8]);
            self.put(after);
        }
    }

    fn text(&self) -> &[u8] {
        &self.bytes[..self.len]
    }
}

#[test]
fn long_text(rt: HostRuntime) -> Result<(), Fail> {
    let bytes = [b'a'; 16385];
    refused(&rt, &bytes[..16384], 2, 1)?;
    refused(&rt, &bytes, 1, 0)
}

#[test]
fn names(rt: HostRuntime) -> Result<(), Fail> {
    taken(b"act\tabcdefghijklmnop\nform\tf\ttrue\ngoal\tf\n")?;
    refused(
        &rt,
        b"act\tabcdefghijklmnopq\nform\tf\ttrue\ngoal\tf\n",
        2,
        1,
    )?;
    refused(
        &rt,
        b"act\ta\nform\tf\ttrue\nform\tf\ttrue\ngoal\tf\n",
        4,
        3,
    )?;
    refused(&rt, b"act\ta\nform\tf\tnot\tf\ngoal\tf\n", 4, 2)
}

fn acts(count: usize) -> Page {
    let mut page = Page::new();
    page.many(count, b"act\t", b"\n");
    page.put(b"form\tf\ttrue\ngoal\tf\n");
    page
}

#[test]
fn sixteen_acts(rt: HostRuntime) -> Result<(), Fail> {
    taken(acts(16).text())?;
    refused(&rt, acts(17).text(), 5, 17)
}

fn forms(count: usize) -> Page {
    let mut page = Page::new();
    page.put(b"act\ta\n");
    page.many(count, b"form\t", b"\ttrue\n");
    page.put(b"goal\taa\n");
    page
}

#[test]
fn sixty_four_forms(rt: HostRuntime) -> Result<(), Fail> {
    taken(forms(64).text())?;
    refused(&rt, forms(65).text(), 5, 66)
}

// Two untils of weight 96, and forms of weight 2.
fn weighing(count: usize) -> Page {
    let mut page = Page::new();
    page.put(b"act\ta\nprog\tx\ta;a;a;a;a;a;a;a;a;a;a;a;a;a;a\nform\tt\ttrue\n");
    page.put(b"form\tu\tuntil\tt\tx\tt\nform\tv\tuntil\tt\tx\tt\n");
    page.many(count, b"form\t", b"\ttrue\n");
    page.put(b"goal\tu\n");
    page
}

#[test]
fn weight(rt: HostRuntime) -> Result<(), Fail> {
    taken(weighing(31).text())?;
    refused(&rt, weighing(32).text(), 5, 37)
}

#[test]
fn programs(rt: HostRuntime) -> Result<(), Fail> {
    refused(
        &rt,
        b"act\ta\nprog\tx\ta;a;a;a;a;a;a;a;a;a;a;a;a;a;a;a\n",
        5,
        2,
    )?;
    refused(&rt, b"act\ta\nprog\tx\ta;b\n", 4, 2)?;
    refused(&rt, b"act\ta\nprog\tx\ta;;a\n", 3, 2)
}

#[test]
fn goals(rt: HostRuntime) -> Result<(), Fail> {
    refused(&rt, b"", 6, 1)?;
    refused(&rt, b"form\tf\ttrue\ngoal\tf\n", 6, 2)?;
    refused(&rt, b"act\ta\nform\tf\ttrue\ngoal\tf\nact\tb\n", 6, 4)?;
    refused(&rt, b"act\ta\nform\tf\ttrue\ngoal\tf", 2, 3)?;
    refused(&rt, b"act\ta\nform\tf\ttrue\ngoal\tf\n\n", 6, 4)
}
