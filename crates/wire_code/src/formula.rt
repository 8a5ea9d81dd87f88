use java_values::{Kind, Op1, Op2};

/// What gives a wire its value. A number other than 0 counts as true in `And`, `Or`, `Not` and the condition of
/// `Choose`; the first three give 0 or 1.
#[derive(Clone, Copy, Debug, PartialEq, Eq)]
pub enum Formula {
    Const(i64),
    /// This place of the frame, which is the code's input.
    Get(u32),
    And(u32, u32),
    Or(u32, u32),
    Not(u32),
    /// The operator on a wire of this kind.
    Apply1(Op1, Kind, u32),
    /// The operator on two wires, the first of the first kind and the second of the second.
    Apply2(Op2, Kind, Kind, u32, u32),
    /// A wire of the first kind, cast to the second.
    Cast(Kind, Kind, u32),
    /// The second wire where the first is true, else the third.
    Choose(u32, u32, u32),
}
