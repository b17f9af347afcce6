//! Rows and columns of a source, counted from 1.
ghost use Rattle.std.specs.Prelude.{◌≡◌, ◌<◌, ◌≤◌, ◌↔◌, ◌^◌, IsNone, IfSome};

use crate::Text;
use std::marker::Model;

/// A number from 1 to 2^32 - 1, as rows and columns are counted. Contracts see the number.
#[derive(Clone, Copy, PartialEq, Eq, Hash, Debug)]
pub struct OneIndexed {
    number: u32,
}

impl Model for OneIndexed {
    ghost use Rattle.std.specs.Prelude.{ℕ, ◌<◌, ◌^◌};

    ghost Value = { ℕ };

    ghost view = { λ o. o.number };

    ghost invariant = { λ o. (0 < o.number) × (o.number < 2 ^ 32) };

    ghost inverse = { λ n. record { number = n } };
}

impl OneIndexed {
    /// The number 1.
    pub const MIN: OneIndexed = OneIndexed { number: 1 };

    /// `n` as such a number. None exactly for 0.
    pub fn new(n: u32) -> Option<OneIndexed>
        ensures none { IsNone result ↔ (n ≡ 0) }
        ensures value { IfSome result (λ x. x ≡ n) }
    {
        if n == 0 {
            return None;
        }
        Some(OneIndexed { number: n })
    }

    /// The number, at least 1.
    pub fn get(self) -> u32
        ensures value { result ≡ self }
        ensures above { 0 < result }
    {
        self.number
    }
}

/// Where a node starts in the source: a row and a column, each counted from 1.
#[derive(Clone, Copy, PartialEq, Eq, Hash, Debug)]
pub struct SourceLocation {
    pub row: OneIndexed,
    pub column: OneIndexed,
}

impl Default for SourceLocation {
    fn default() -> SourceLocation
        ensures row { result.row ≡ 1 }
        ensures column { result.column ≡ 1 }
    {
        SourceLocation {
            row: OneIndexed::MIN,
            column: OneIndexed::MIN,
        }
    }
}

/// An error, where it stands in the source, and the path of the source. The location is None where the
/// whole tree is at fault.
#[derive(Debug, Drop)]
pub struct LocatedError<T> {
    pub error: T,
    pub location: Option<SourceLocation>,
    pub source_path: Text,
}
