//! A law of the commands. Its body does nothing but name the laws that it stands on.
ghost use Rattle.py_run.specs.Laws.{UnpackUndoesPack};

use codegen::equal_trees_have_equal_code;
use py_verifier_law::compiled_is_flawless;

/// What `pack` wrote in fewer than 2^26 bytes is not refused by `unpack`, which writes for it the listing that the
/// compilation itself writes.
pub fn unpack_undoes_pack()
    ensures { UnpackUndoesPack }
{
    equal_trees_have_equal_code();
    compiled_is_flawless();
}
