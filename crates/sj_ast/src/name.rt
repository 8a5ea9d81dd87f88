use java_values::Text;

/// A name, with the byte offset of its token in the source.
#[derive(Debug, Drop)]
pub struct Name {
    pub text: Text,
    pub at: u32,
}
