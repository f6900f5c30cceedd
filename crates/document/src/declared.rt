// What the lines of a document declare: names by kind, the rows of programs, and the forms.
ghost use Rattle.std.specs.Prelude.{◌≡◌, ℕ, ◌+◌, ◌<◌, ◌≤◌, true, [], ◌∷◌, ◌++◌, length, slice_set};
ghost use Rattle.program.specs.Names.{spelled};
ghost use Rattle.document.specs.Forms.{Earlier, earlier, form_in, base_in, row_at, weight_in, Known};
ghost use Rattle.document.specs.Kept.{names_of};

use crate::form::Form;
use crate::names::Names;
use program::name::Name;
use program::row::Row;

// A form, and the number of its first claim.
#[derive(Clone, Copy, PartialEq, Eq, Debug)]
pub struct FormLine {
    form: Form,
    base: u16,
}

// Form e speaks of earlier forms and of what is declared, and its claims are numbered from its base on, below the weight.
#[derive(Clone, Copy)]
pub struct Declared {
    acts: Names,
    props: Names,
    // Kept: rows and form lines stand apart from their names: names of all four kinds are one type of 64 places, and are
    // looked up alone.
    progs: Names,
    rows: [Row; 16],
    forms: Names,
    lines: [FormLine; 64],
    weight: u16,
    ghost acts_few: { acts.count ≤ 16 },
    ghost props_few: { props.count ≤ 16 },
    ghost progs_few: { progs.count ≤ 16 },
    ghost room: { (length rows ≡ 16) × (length lines ≡ 64) },
    ghost light: { weight ≤ 256 },
    ghost ordered: { (e : ℕ) → e < forms.count → earlier props.count acts.count progs.count e (form_in lines e) ≡ true },
    ghost numbered: { (e : ℕ) → e < forms.count → base_in lines e + weight_in rows (form_in lines e) ≤ weight },
}

impl Declared {
    pub fn new() -> Declared
        ensures names { (names_of result.acts ≡ []) × (names_of result.props ≡ []) × (names_of result.progs ≡ []) × (names_of result.forms ≡ []) }
        ensures counts { (result.progs.count ≡ 0) × (result.forms.count ≡ 0) }
        ensures weight { result.weight ≡ 0 }
    {
        Declared {
            acts: Names::new(),
            props: Names::new(),
            progs: Names::new(),
            rows: [Row::blank(); 16],
            forms: Names::new(),
            lines: [FormLine {
                form: Form::True,
                base: 0,
            }; 64],
            weight: 0,
        }
    }

    pub fn acts(&self) -> &Names
        ensures is { result.now ≡ self.now.acts }
        ensures few { result.now.count ≤ 16 }
    {
        &self.acts
    }

    pub fn props(&self) -> &Names
        ensures is { result.now ≡ self.now.props }
        ensures few { result.now.count ≤ 16 }
    {
        &self.props
    }

    pub fn progs(&self) -> &Names
        ensures is { result.now ≡ self.now.progs }
        ensures few { result.now.count ≤ 16 }
    {
        &self.progs
    }

    pub fn forms(&self) -> &Names
        ensures is { result.now ≡ self.now.forms }
        ensures few { result.now.count ≤ 64 }
    {
        &self.forms
    }

    pub fn weight(&self) -> u16
        ensures is { result ≡ self.now.weight }
        ensures light { result ≤ 256 }
    {
        self.weight
    }

    // The form of a number; `true` past the last.
    pub fn form(&self, e: usize) -> Form
        ensures is { e < self.now.forms.count → result ≡ form_in self.now.lines e }
        ensures earlier { Earlier 16 16 16 e result }
    {
        if e < self.forms.count() {
            self.lines[e].form
        } else {
            Form::True
        }
    }

    // The row of a program.
    pub fn row(&self, p: u8) -> Row
        requires { p < 16 }
        ensures { result ≡ row_at self.now.rows p }
    {
        self.rows[p as usize]
    }

    // How many claims a form has: 2, but 6 for each state of an until.
    pub fn weight_of(&self, form: Form) -> u16
        requires { Known form }
        ensures is { result ≡ weight_in self.now.rows form }
        ensures bound { result ≤ 96 }
    {
        match form {
            Form::Until(_, p, _) => 6 * self.row(p).states() as u16,
            _ => 2,
        }
    }

    // The number of a form's first claim.
    pub fn base(&self, e: usize) -> u16
        ensures within { e < self.now.forms.count → result + weight_in self.now.rows (form_in self.now.lines e) ≤ 256 }
        ensures is { e < 64 → result ≡ base_in self.now.lines e }
    {
        if e < 64 { self.lines[e].base } else { 0 }
    }

    // With one action more.
    // Kept: this and `with_prop` differ in the field alone; with the field as a parameter each clause would have to say for
    // both kinds which names grow.
    pub fn with_act(mut self, name: Name) -> Declared
        requires { self.acts.count < 16 }
        ensures count { result.acts.count ≡ self.acts.count + 1 }
        ensures acts { names_of result.acts ≡ names_of self.acts ++ spelled name ∷ [] }
        ensures rest { (result.props ≡ self.props) × (result.progs ≡ self.progs) × (result.rows ≡ self.rows) × (result.forms ≡ self.forms) × (result.lines ≡ self.lines) × (result.weight ≡ self.weight) }
    {
        self.acts = self.acts.with(name);
        self
    }

    // With one proposition more.
    pub fn with_prop(mut self, name: Name) -> Declared
        requires { self.props.count < 16 }
        ensures count { result.props.count ≡ self.props.count + 1 }
        ensures props { names_of result.props ≡ names_of self.props ++ spelled name ∷ [] }
        ensures rest { (result.acts ≡ self.acts) × (result.progs ≡ self.progs) × (result.rows ≡ self.rows) × (result.forms ≡ self.forms) × (result.lines ≡ self.lines) × (result.weight ≡ self.weight) }
    {
        self.props = self.props.with(name);
        self
    }

    // With one program more.
    pub fn with_prog(mut self, name: Name, row: Row) -> Declared
        requires { self.progs.count < 16 }
        ensures count { result.progs.count ≡ self.progs.count + 1 }
        ensures progs { names_of result.progs ≡ names_of self.progs ++ spelled name ∷ [] }
        ensures row { result.rows ≡ slice_set self.rows self.progs.count row }
        ensures rest { (result.acts ≡ self.acts) × (result.props ≡ self.props) × (result.forms ≡ self.forms) × (result.lines ≡ self.lines) × (result.weight ≡ self.weight) }
    {
        let p = self.progs.count();
        self.rows[p] = row;
        self.progs = self.progs.with(name);
        self
    }

    // With one form more, whose claims are numbered after all others.
    pub fn with_form(mut self, name: Name, form: Form) -> Declared
        requires room { self.forms.count < 64 }
        requires light { self.weight + weight_in self.rows form ≤ 256 }
        requires known { Earlier self.props.count self.acts.count self.progs.count self.forms.count form }
        ensures count { result.forms.count ≡ self.forms.count + 1 }
        ensures forms { names_of result.forms ≡ names_of self.forms ++ spelled name ∷ [] }
        ensures line { result.lines ≡ slice_set self.lines self.forms.count (record { form = form; base = self.weight }) }
        ensures weight { result.weight ≡ self.weight + weight_in self.rows form }
        ensures rest { (result.acts ≡ self.acts) × (result.props ≡ self.props) × (result.progs ≡ self.progs) × (result.rows ≡ self.rows) }
    {
        let e = self.forms.count();
        let weight = self.weight + self.weight_of(form);
        self.lines[e] = FormLine {
            form,
            base: self.weight,
        };
        self.forms = self.forms.with(name);
        self.weight = weight;
        self
    }
}
