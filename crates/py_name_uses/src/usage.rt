//! How a name is used as a target or a value.
/// How an expression is used.
#[derive(Clone, Copy, Debug, PartialEq, Eq)]
pub enum Usage {
    /// For its value.
    Load,
    /// For its value, within the iterable of a comprehension, where no walrus may stand.
    Iterable,
    /// As a target that is assigned to.
    Store,
    /// As a target that is deleted.
    Delete,
    /// As a target of a comprehension.
    Target,
    /// As the target of a walrus.
    Walrus,
}
