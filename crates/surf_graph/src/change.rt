/// A variable that got another wire, and the wire that it had before.
#[derive(Clone, Copy, Debug, Drop)]
pub struct Change {
    pub variable: u32,
    pub before: u32,
}
