//! The look outward from a scope.
ghost use Rattle.std.specs.Prelude.{◌≡◌, ◌<◌, ℕ, length, OnOk, IfOk, slice_get, option_map, All};
ghost use Rattle.py_scope.specs.Outward.{meets, counts, stop_of, asks, asked_outward, is_free, look, chain, enclosing_scopes, parents, meetings, touch, IsNumbered, Passes, Captures};
ghost use Rattle.py_scope.specs.Marks.{after, IsLooked, IsSettled, looks};

use crate::rows::{Entry, Holds, Row};
use crate::table_type::SymbolTableType;
use py_base::Text;

/// What a look for a name meets in a scope.
#[derive(Clone, Copy, Debug, PartialEq, Eq)]
pub enum Meets {
    /// Nothing: the look goes on.
    Past,
    /// A binding.
    Binding,
    /// A declaration as global.
    Explicit,
}

/// What a look outward ends with.
#[derive(Clone, Copy, Debug, PartialEq, Eq)]
pub enum Found {
    Nowhere,
    Globally,
    /// The scope that decides.
    FreeOf(usize),
}

/// Whether a look outward for the name stops in such a scope: never in a module, and in a class for `__class__` alone.
fn counts(kind: SymbolTableType, name: &Text) -> bool
    ensures { result ≡ counts kind name.now }
{
    match kind {
        SymbolTableType::Module => false,
        SymbolTableType::Class => name.as_str() == "__class__",
        SymbolTableType::Function | SymbolTableType::Comprehension | SymbolTableType::TypeParams =>
            true,
    }
}

fn stop_of(holds: Holds, bound: bool) -> Meets
    ensures { result ≡ stop_of holds bound }
{
    match holds {
        Holds::DeclaredGlobal | Holds::LiftedGlobal => Meets::Explicit,
        Holds::LiftedModule => Meets::Past,
        Holds::Plain | Holds::DeclaredNonlocal | Holds::LiftedFree | Holds::Passed => {
            if bound { Meets::Binding } else { Meets::Past }
        }
    }
}

/// What a look for the name meets in this scope.
pub fn look_in(name: &Text, row: &Row) -> Meets
    ensures { result ≡ meets name.now row.now }
{
    if !counts(row.kind, name) {
        return Meets::Past;
    }
    match row.entries.get(name) {
        None => Meets::Past,
        Some(entry) => stop_of(entry.holds, entry.is_bound()),
    }
}

/// Whether the scope asks outward.
pub fn asks(entry: Entry) -> bool
    ensures { result ≡ asks entry }
{
    match entry.holds {
        Holds::Plain => !entry.is_bound(),
        Holds::DeclaredNonlocal => true,
        _ => false,
    }
}

/// Whether the look ended at a binding.
pub fn is_free(found: Found) -> bool
    ensures { result ≡ is_free found }
{
    matches!(found, Found::FreeOf(_))
}
