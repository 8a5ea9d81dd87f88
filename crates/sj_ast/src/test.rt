use sqlite_items::Boxed;

/// A test of signals. `at` is the byte offset of a token: of the name, the operator or the `(`.
#[derive(Debug, Drop)]
pub enum Test<N> {
    Signal {
        at: u32,
        name: N,
    },
    Not {
        at: u32,
        test: Boxed<Test<N>>,
    },
    /// A test in parentheses.
    Group {
        at: u32,
        inner: Boxed<Test<N>>,
    },
    Both {
        at: u32,
        left: Boxed<Test<N>>,
        right: Boxed<Test<N>>,
    },
    Either {
        at: u32,
        left: Boxed<Test<N>>,
        right: Boxed<Test<N>>,
    },
}
