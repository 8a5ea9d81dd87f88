/// What gives a wire its value. A number other than 0 counts as true; `And`, `Or` and `Not` give 0
/// or 1.
#[derive(Clone, Copy, Debug, PartialEq, Eq)]
pub enum Formula {
    Const(i64),
    /// This place of the frame, which is the code's input.
    Get(u32),
    And(u32, u32),
    Or(u32, u32),
    Not(u32),
}
