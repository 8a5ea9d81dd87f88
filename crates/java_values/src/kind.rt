/// A kind of values. `byte`, `short`, `int` and `long` are signed, of 8, 16, 32 and 64 bits; `char` is
/// unsigned, of 16 bits; `boolean` has 0 for `false` and 1 for `true`.
#[derive(Clone, Copy, Debug, PartialEq, Eq)]
pub enum Kind {
    Boolean,
    Byte,
    Short,
    Char,
    Int,
    Long,
}
