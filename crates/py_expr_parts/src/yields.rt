//! Whether the present scope is a function, which alone hands values on.
ghost use Rattle.std.specs.Prelude.{◌≡◌};
ghost use Rattle.py_emission_parts.specs.Context.{is_function};
ghost use Rattle.py_emission_parts.specs.Emitting.{keep};
ghost use Rattle.py_emission_parts.specs.EmissionParts.{only_in_function};
ghost use Rattle.py_emit.specs.States.{Emits};

use py_base::{CodegenError, CodegenErrorType};
use py_emit::{Emitter, refuse};
use py_scope::SymbolTableType;

/// Whether a scope of this kind is a function: lambdas, comprehensions and scopes of type parameters are functions too.
pub fn is_function(typ: SymbolTableType) -> bool
    ensures { result ≡ is_function typ }
{
    !matches!(typ, SymbolTableType::Module | SymbolTableType::Class)
}

/// Leaves with this error where the present scope is no function.
///
/// # Errors
/// The error alone.
pub fn check_in_function(em: &mut Emitter, error: CodegenErrorType) -> Result<(), CodegenError>
    ensures { Emits result (only_in_function error keep) em.old em.new }
{
    if is_function(em.scope_type()) {
        return Ok(());
    }
    refuse!(em, error);
}
