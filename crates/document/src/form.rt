// A form line: its operands are numbers of actions, propositions, programs and earlier forms.
// Kept: operands are numbers and no `Box`: a document allocates nothing and is copied as a whole.
#[derive(Clone, Copy, PartialEq, Eq, Debug)]
pub enum Form {
    True,
    Prop(u8),
    Not(u8),
    And(u8, u8),
    Or(u8, u8),
    Next(u8, u8),
    Until(u8, u8, u8),
}
