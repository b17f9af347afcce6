//! Laws of the names that are refused once a scan is done. Their bodies do nothing.
ghost use Rattle.py_scope_proof.specs.NameLaws.{NeverGlobalAndLocal, NonlocalsResolve, RefusedByUses, RefusedExactly, ValuesRefusedByUses, ValuesRefusedExactly};

/// The fault of a scan that is done is the first that the uses of its scopes say: of a walrus in a comprehension, else of a name.
pub fn refused_by_uses()
    ensures programs { RefusedByUses }
    ensures values { ValuesRefusedByUses }
{}

/// A scan that is done has no fault exactly where the uses refuse no walrus and no name of any scope.
pub fn refused_exactly()
    ensures programs { RefusedExactly }
    ensures values { ValuesRefusedExactly }
{}

/// In such a scan each name that a scope declares nonlocal is free there, and has a binder.
pub fn nonlocals_resolve()
    ensures { NonlocalsResolve }
{}

/// No symbol is global and local.
pub fn never_global_and_local()
    ensures { NeverGlobalAndLocal }
{}
