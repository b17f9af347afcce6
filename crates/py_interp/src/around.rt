//! What stands around the nodes that are walked.

/// How nodes of the outermost scope are read.
#[derive(Clone, Copy, PartialEq, Eq, Debug)]
pub struct Around {
    /// The level of optimization.
    pub level: u8,
    /// Whether annotations are postponed.
    pub postponed: bool,
}
