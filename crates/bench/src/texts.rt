// The documents of the series.
use std::alloc::Global;
use std::fmt::Write;

// One until whose promise is never kept, over a program of fifteen steps: a goal of 16 nodes for each of the actions
// declared in `acts`, and no lasso.
pub fn vain(heap: Global, acts: &str) -> anyhow::Result<String> {
    let mut text = String::from_str(heap, acts)?;
    text.push_str("prog\tx\t(a;a;a;a;a;a;a;a;a;a;a;a;a;a;a)*\n")?;
    text.push_str("form\tt\ttrue\nform\tn\tnot\tt\nform\tu\tuntil\tt\tx\tn\ngoal\tu\n")?;
    Ok(text)
}

// Adds the forms f1 to f57, each over the one before it.
fn add_forms(text: &mut String) -> anyhow::Result<()> {
    for k in 1..58u8 {
        let last = k - 1;
        match k % 4 {
            0 => writeln!(text, "form\tf{k}\tand\tf{last}\tu0")?,
            1 => writeln!(text, "form\tf{k}\tor\tf{last}\tu1")?,
            2 => writeln!(text, "form\tf{k}\tnot\tf{last}")?,
            _ => writeln!(text, "form\tf{k}\tnext\tb\tf{last}")?,
        }
    }
    Ok(())
}

// 64 forms, four of them untils that go round a loop up to three times.
pub fn full(heap: Global) -> anyhow::Result<String> {
    let mut text = String::from_str(heap, "act\tb\nact\tc\nprop\tp\n")?;
    text.push_str("prog\tx0\tb*;c;b*\nprog\tx1\tb*;c;b*;c;b*\n")?;
    text.push_str("prog\tx2\tb*;c;b*;c;b*;c\nprog\tx3\tb*;c;b*;c\n")?;
    text.push_str("form\tt\ttrue\nform\tp\tprop\tp\n")?;
    text.push_str("form\tu0\tuntil\tt\tx0\tp\nform\tu1\tuntil\tt\tx1\tp\n")?;
    text.push_str("form\tu2\tuntil\tt\tx2\tp\nform\tu3\tuntil\tt\tx3\tp\n")?;
    text.push_str("form\tf0\tand\tu1\tu3\n")?;
    add_forms(&mut text)?;
    text.push_str("goal\tf57\n")?;
    Ok(text)
}

// Adds forms whose last has `count` expansions: an or of true forms. Their names begin with `name`.
fn add_choice(text: &mut String, name: char, count: u8) -> anyhow::Result<()> {
    writeln!(text, "form\t{name}0\ttrue")?;
    writeln!(text, "form\t{name}o0\tor\t{name}0\t{name}0")?;
    for i in 1..count {
        let last = i - 1;
        writeln!(text, "form\t{name}{i}\ttrue")?;
        writeln!(text, "form\t{name}o{i}\tor\t{name}{i}\t{name}o{last}")?;
    }
    Ok(())
}

// 16 actions and a goal of 42 * `last` expansions: 672 * `last` first nodes, and 64 that follow each of them.
pub fn wide(heap: Global, last: u8) -> anyhow::Result<String> {
    let mut text = String::new(heap);
    for a in 0..16u8 {
        writeln!(text, "act\ta{a}")?;
    }
    add_choice(&mut text, 'b', 7)?;
    add_choice(&mut text, 'c', 6)?;
    add_choice(&mut text, 'd', last)?;
    let end = last.saturating_sub(1);
    writeln!(
        text,
        "form\tx\tand\tbo6\tco5\nform\ty\tand\tx\tdo{end}\ngoal\ty"
    )?;
    Ok(text)
}

// `count` untils that are all promised at once.
pub fn promises(heap: Global, count: u8) -> anyhow::Result<String> {
    let mut text = String::from_str(
        heap,
        "act\ta\nprog\tx\ta*\nform\tt\ttrue\nform\tg0\tor\tt\tt\n",
    )?;
    for i in 0..count {
        let next = i.saturating_add(1);
        writeln!(text, "prop\tp{i}\nform\tf{i}\tprop\tp{i}")?;
        writeln!(
            text,
            "form\tu{i}\tuntil\tt\tx\tf{i}\nform\tg{next}\tand\tg{i}\tu{i}"
        )?;
    }
    writeln!(text, "goal\tg{count}")?;
    Ok(text)
}

// Adds a program of `len` bytes, if its line takes no more: stars fill it up.
fn add_program(text: &mut String, i: u8, len: usize) -> anyhow::Result<()> {
    let end = text.len().saturating_add(len);
    write!(text, "prog\tx{i}\ta{i}")?;
    for _ in text.len().saturating_add(1)..end {
        text.push('*')?;
    }
    text.push('\n')?;
    Ok(())
}

// 64 forms in a row.
fn row_of_forms(heap: Global) -> anyhow::Result<String> {
    let mut text = String::from_str(heap, "form\tf0\ttrue\n")?;
    for i in 1..64u8 {
        let last = i - 1;
        writeln!(text, "form\tf{i}\tnot\tf{last}")?;
    }
    text.push_str("goal\tf63\n")?;
    Ok(text)
}

// A text of `size` bytes, if its lines take no more: 16 actions, propositions and programs, and 64 forms.
pub fn filled(heap: Global, size: usize) -> anyhow::Result<String> {
    let forms = row_of_forms(heap)?;
    let mut text = String::new(heap);
    for i in 0..16u8 {
        writeln!(text, "act\ta{i}\nprop\tp{i}")?;
    }
    for i in 0..16u8 {
        let left = size.saturating_sub(text.len()).saturating_sub(forms.len());
        add_program(&mut text, i, left / usize::from(16 - i))?;
    }
    text.push_str(forms.as_str())?;
    Ok(text)
}
