//! What may be taken from the future.
ghost use Rattle.py_emission.specs.EmissionFutures.{check_features};
ghost use Rattle.py_emit.specs.States.{Emits};

use py_base::CodegenError;
use py_emit::Emitter;
use py_tree::{Alias, List};

/// Refuses what cannot be taken from the future (language reference, "Future statements").
///
/// # Errors
/// InvalidFutureFeature for the first name that cannot be taken from it, or OutOfMemory.
pub fn compile_future_features(em: &mut Emitter, features: &List<Alias>) -> Result<(), CodegenError>
    ensures { Emits result (check_features features.now) em.old em.new }
{
    py_stmt_parts::compile_future_features(em, features.as_slice())
}
