// One step of a session: the state it starts from, the action done, and the propositions that hold (bit p for proposition p).
#[derive(Clone, Copy, PartialEq, Eq, Debug, Default)]
pub struct Step {
    pub state: u16,
    pub action: u8,
    pub marks: u16,
}
