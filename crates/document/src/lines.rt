// The lines of a document by kind. Faults are tried in the order of their codes.
ghost use Rattle.std.specs.Prelude.{◌≡◌, ℕ, ◌+◌, ◌<◌, ◌≤◌, [], length, IfOk, codes, Decides, MatchResult, ◌≢◌, slice_index_or};
ghost use Rattle.program.specs.Names.{Named, spelled};
ghost use Rattle.program.specs.Spellings.{Missing, NumberIn};
ghost use Rattle.document.specs.Kept.{names_of};
ghost use Rattle.document.specs.Declaring.{KnownName};
ghost use Rattle.document.specs.Told.{word_in, NameTaken, NameRefused, Headed, Unheaded, ProgHeaded, ProgUnheaded, Told, FormTold, GoalTold};
ghost use Rattle.document.specs.Texts.{fields};
ghost use Rattle.document.specs.declared.fault.LineFault.TheVariants.{Shape, Naming, Limit};
ghost use Rattle.document.specs.Forms.{Earlier};

use crate::declared::Declared;
use crate::document::Document;
use crate::fault::LineFault;
use crate::fields::{field, field_count};
use crate::form::Form;
use crate::names::Names;
pub use crate::words::Kind;
use crate::words::Word;
use program::check::check;
use program::name::{Name, is_name};
use program::read::read;

// The name that a field spells.
fn name_of(text: &[u8]) -> Result<Name, LineFault>
    ensures { MatchResult result (λ n. Named text.now × (spelled n ≡ text.now)) (λ f. (f ≡ Shape) × (Named text.now → ⊥)) }
{
    Name::read(text).ok_or(LineFault::Shape)
}

// The number of a name that is declared.
fn number_of(names: &Names, text: &[u8]) -> Result<u8, LineFault>
    ensures within { IfOk result (λ i. i < names.now.count) }
    ensures is { MatchResult result (λ i. NumberIn (names_of names.now) text.now i) (λ f. (f ≡ Naming) × Missing (names_of names.now) text.now) }
{
    let number = names.find(text).ok_or(LineFault::Naming)?;
    Ok(number as u8)
}

// Refuses a name that is declared already.
fn unused(names: &Names, text: &[u8]) -> Result<(), LineFault>
    ensures { MatchResult result (λ _. Missing (names_of names.now) text.now) (λ f. (f ≡ Naming) × KnownName (names_of names.now) text.now) }
{
    if names.find(text).is_some() {
        return Err(LineFault::Naming);
    }
    Ok(())
}

// Refuses one name more than a kind may have.
fn room(names: &Names, limit: usize) -> Result<(), LineFault>
    ensures { MatchResult result (λ _. names.now.count < limit) (λ f. (f ≡ Limit) × (limit ≤ names.now.count)) }
{
    if names.count() >= limit {
        return Err(LineFault::Limit);
    }
    Ok(())
}

// Refuses a line with another number of fields.
pub fn counted(line: &[u8], count: usize) -> Result<(), LineFault>
    ensures { MatchResult result (λ _. length (fields line.now) ≡ count) (λ f. (f ≡ Shape) × (length (fields line.now) ≡ count → ⊥)) }
{
    if field_count(line) != count {
        return Err(LineFault::Shape);
    }
    Ok(())
}

// The name that a line of two fields declares: it is new in its kind, and below the limit.
fn new_name(names: &Names, line: &[u8], limit: usize) -> Result<Name, LineFault>
    ensures { MatchResult result (NameTaken (names_of names.now) names.now.count limit line.now) (NameRefused (names_of names.now) names.now.count limit line.now) }
{
    counted(line, 2)?;
    let text = field(line, 1);
    let name = name_of(text)?;
    unused(names, text)?;
    room(names, limit)?;
    Ok(name)
}

// `act NAME`
// Kept: this and `prop_line` differ in the kind alone; one function for both would need what `with_act` and `with_prop` lack, a
// clause that says for each kind which names grow.
fn act_line(declared: Declared, line: &[u8]) -> Result<Declared, LineFault>
    ensures { word_in line.now ≡ codes "act" → Told declared line.now result }
{
    let name = new_name(declared.acts(), line, 16)?;
    Ok(declared.with_act(name))
}

// `prop NAME`
fn prop_line(declared: Declared, line: &[u8]) -> Result<Declared, LineFault>
    ensures { word_in line.now ≡ codes "prop" → Told declared line.now result }
{
    let name = new_name(declared.props(), line, 16)?;
    Ok(declared.with_prop(name))
}

// The name of a program line, whose program is well-formed.
fn prog_head(line: &[u8]) -> Result<Name, LineFault>
    ensures { MatchResult result (λ name. ProgHeaded line.now × (spelled name ≡ slice_index_or (fields line.now) 1 [])) (ProgUnheaded line.now) }
{
    counted(line, 3)?;
    let name = name_of(field(line, 1))?;
    check(field(line, 2))?;
    Ok(name)
}

// `prog NAME PROGRAM`
fn prog_line(declared: Declared, line: &[u8]) -> Result<Declared, LineFault>
    ensures { word_in line.now ≡ codes "prog" → Told declared line.now result }
{
    let name = prog_head(line)?;
    unused(declared.progs(), name.as_bytes())?;
    let row = read(field(line, 2), declared.acts().listed())?;
    room(declared.progs(), 16)?;
    Ok(declared.with_prog(name, row))
}

// Whether each operand of a form line is a well-formed name.
// Kept: a `for` over numbers and no `all`. Tried: the clause of `is_name` comes through the closure only by an answer that is
// longer than this loop's invariant.
fn operands_named(line: &[u8], operands: usize) -> bool
    requires { operands ≤ 3 }
    ensures { Decides result ((k : ℕ) → k < operands → Named (slice_index_or (fields line.now) (3 + k) [])) }
{
    for k in 0..operands {
        if !is_name(field(line, 3 + k)) {
            return false;
        }
    }
    true
}

// The numbers of the two forms that a form line of two operands names.
fn two_forms(forms: &Names, line: &[u8]) -> Result<(u8, u8), LineFault>
    ensures within { IfOk result (λ both. (both.0 < forms.now.count) × (both.1 < forms.now.count)) }
    ensures is { MatchResult result (λ both. NumberIn (names_of forms.now) (slice_index_or (fields line.now) 3 []) both.0 × NumberIn (names_of forms.now) (slice_index_or (fields line.now) 4 []) both.1) (λ f. (f ≡ Naming) × (KnownName (names_of forms.now) (slice_index_or (fields line.now) 3 []) × KnownName (names_of forms.now) (slice_index_or (fields line.now) 4 []) → ⊥)) }
{
    let f = number_of(forms, field(line, 3))?;
    let g = number_of(forms, field(line, 4))?;
    Ok((f, g))
}

// The form of a kind, with the numbers of its operands.
fn form_of(declared: &Declared, kind: Kind, line: &[u8]) -> Result<Form, LineFault>
    ensures told { FormTold declared.now kind line.now result }
    ensures earlier { IfOk result (λ f. Earlier declared.now.props.count declared.now.acts.count declared.now.progs.count declared.now.forms.count f) }
{
    let acts = declared.acts();
    let props = declared.props();
    let progs = declared.progs();
    let forms = declared.forms();
    match kind {
        Kind::True => Ok(Form::True),
        Kind::Prop => Ok(Form::Prop(number_of(props, field(line, 3))?)),
        Kind::Not => Ok(Form::Not(number_of(forms, field(line, 3))?)),
        Kind::And => {
            let (f, g) = two_forms(forms, line)?;
            Ok(Form::And(f, g))
        }
        Kind::Or => {
            let (f, g) = two_forms(forms, line)?;
            Ok(Form::Or(f, g))
        }
        Kind::Next => {
            let a = number_of(acts, field(line, 3))?;
            let f = number_of(forms, field(line, 4))?;
            Ok(Form::Next(a, f))
        }
        Kind::Until => {
            let f = number_of(forms, field(line, 3))?;
            let p = number_of(progs, field(line, 4))?;
            let g = number_of(forms, field(line, 5))?;
            Ok(Form::Until(f, p, g))
        }
    }
}

// The kind and the name of a form line, which has the fields of its kind.
fn form_head(line: &[u8]) -> Result<(Kind, Name), LineFault>
    ensures { MatchResult result (λ head. Headed head.0 line.now × (spelled head.1 ≡ slice_index_or (fields line.now) 1 [])) (λ f. (f ≡ Shape) × Unheaded line.now) }
{
    let kind = Kind::try_from(field(line, 2))?;
    counted(line, 3 + kind.operands())?;
    let name = name_of(field(line, 1))?;
    if !operands_named(line, kind.operands()) {
        return Err(LineFault::Shape);
    }
    Ok((kind, name))
}

// `form NAME KIND OPERANDS`
fn form_line(declared: Declared, line: &[u8]) -> Result<Declared, LineFault>
    ensures { word_in line.now ≡ codes "form" → Told declared line.now result }
{
    let (kind, name) = form_head(line)?;
    unused(declared.forms(), name.as_bytes())?;
    let form = form_of(&declared, kind, line)?;
    room(declared.forms(), 64)?;
    if declared.weight() + declared.weight_of(form) > 256 {
        return Err(LineFault::Limit);
    }
    Ok(declared.with_form(name, form))
}

// `goal FORM`
pub fn goal_line(declared: Declared, line: &[u8]) -> Result<Document, LineFault>
    ensures { word_in line.now ≡ codes "goal" → GoalTold declared line.now result }
{
    counted(line, 2)?;
    let text = field(line, 1);
    if !is_name(text) {
        return Err(LineFault::Shape);
    }
    let goal = number_of(declared.forms(), text)?;
    if declared.acts().count() == 0 {
        return Err(LineFault::Order);
    }
    Ok(Document::new(declared, goal as usize))
}

// A line that declares something.
// Kept: a `match` over the words that a line begins with; a table of the readers would be no plainer, and the goal line is read
// elsewhere.
pub fn declaration(declared: Declared, line: &[u8]) -> Result<Declared, LineFault>
    ensures { (word_in line.now ≢ codes "goal") → Told declared line.now result }
{
    match Word::try_from(field(line, 0))? {
        Word::Act => act_line(declared, line),
        Word::Prop => prop_line(declared, line),
        Word::Prog => prog_line(declared, line),
        Word::Form => form_line(declared, line),
        Word::Goal => Err(LineFault::Shape),
    }
}

// Whether the line's first field is `goal`.
pub fn is_goal(line: &[u8]) -> bool
    ensures { Decides result (word_in line.now ≡ codes "goal") }
{
    matches!(Word::try_from(field(line, 0)), Ok(Word::Goal))
}
