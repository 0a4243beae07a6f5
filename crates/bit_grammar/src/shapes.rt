/// Where the shape of a definition is judged: whether its operands are in a lawful order. Either way no record is read by operands
/// in an unlawful order.
#[derive(Clone, Copy, Debug, PartialEq, Eq)]
pub enum Shapes {
    /// At the definition, whether or not a record uses it.
    AtDefinition,
    /// At a record that uses it, as LLVM's reader does.
    AtUse,
}
