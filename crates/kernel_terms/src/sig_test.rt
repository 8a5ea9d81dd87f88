use sqlite_items::Boxed;

/// A test of signals, which looks at their presence alone.
#[derive(Debug, Drop)]
pub enum SigTest {
    /// The signal of this number is present.
    Signal(u32),
    Not(Boxed<SigTest>),
    Both(Boxed<SigTest>, Boxed<SigTest>),
    Either(Boxed<SigTest>, Boxed<SigTest>),
}
