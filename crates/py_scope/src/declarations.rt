//! Which uses of a name are refused.
ghost use Rattle.std.specs.Prelude.{◌≡◌, IfOk};
ghost use Rattle.py_scope.specs.Declarations.{used_before, bits_of, is_declared_global, refused_global, refused_new, refused_nonlocal, refused_plain, refused_use};

use crate::flags::SymbolFlags;
use crate::refusal::{Declaration, Refusal};
use crate::roles::Role;
use crate::rows::{Entry, Holds};
use crate::table_type::SymbolTableType;
use bitflags::Flags;
use py_base::Text;
use std::alloc::{AllocError, Global};

/// Why a name with these flags may not be declared.
fn used_before(
    alloc: Global,
    declaration: Declaration,
    name: &Text,
    roles: SymbolFlags,
) -> Result<Option<Refusal>, AllocError>
    ensures { IfOk result (λ refusal. refusal ≡ used_before declaration name.now roles.0) }
{
    if roles.intersects(SymbolFlags::PARAMETER) {
        let name = name.try_clone(alloc)?;
        return Ok(Some(Refusal::Parameter(declaration, name)));
    }
    if roles.intersects(SymbolFlags::REFERENCED) {
        let name = name.try_clone(alloc)?;
        return Ok(Some(Refusal::Used(declaration, name)));
    }
    if roles.intersects(SymbolFlags::ANNOTATED) {
        let name = name.try_clone(alloc)?;
        return Ok(Some(Refusal::Annotated(declaration, name)));
    }
    if roles.intersects(SymbolFlags::ASSIGNED) {
        let name = name.try_clone(alloc)?;
        return Ok(Some(Refusal::Assigned(declaration, name)));
    }
    Ok(None)
}

fn bits_of(entry: Option<Entry>) -> SymbolFlags
    ensures { result.0 ≡ bits_of entry }
{
    match entry {
        Some(entry) => entry.roles,
        None => SymbolFlags::NONE,
    }
}

fn is_declared_global(holds: Holds) -> bool
    ensures { result ≡ is_declared_global holds }
{
    matches!(holds, Holds::DeclaredGlobal)
}

fn refused_global(
    alloc: Global,
    name: &Text,
    entry: Option<Entry>,
) -> Result<Option<Refusal>, AllocError>
    ensures { IfOk result (λ refusal. refusal ≡ refused_global name.now entry) }
{
    match entry {
        None => Ok(None),
        Some(entry) => {
            if is_declared_global(entry.holds) {
                Ok(None)
            } else {
                used_before(alloc, Declaration::Global, name, entry.roles)
            }
        }
    }
}

fn refused_new(
    alloc: Global,
    kind: SymbolTableType,
    name: &Text,
) -> Result<Option<Refusal>, AllocError>
    ensures { IfOk result (λ refusal. refusal ≡ refused_new kind name.now) }
{
    match kind {
        SymbolTableType::Module => {
            let name = name.try_clone(alloc)?;
            Ok(Some(Refusal::NonlocalAtTop(name)))
        }
        _ => Ok(None),
    }
}

fn refused_nonlocal(
    alloc: Global,
    kind: SymbolTableType,
    name: &Text,
    entry: Option<Entry>,
) -> Result<Option<Refusal>, AllocError>
    ensures { IfOk result (λ refusal. refusal ≡ refused_nonlocal kind name.now entry) }
{
    match entry {
        None => refused_new(alloc, kind, name),
        Some(entry) => used_before(alloc, Declaration::Nonlocal, name, entry.roles),
    }
}

fn refused_plain(roles: SymbolFlags) -> Option<Refusal>
    ensures { result ≡ refused_plain roles.0 }
{
    if roles.intersects(SymbolFlags::ITER) && roles.intersects(SymbolFlags::ASSIGNED) {
        Some(Refusal::IteratedAndAssigned)
    } else {
        None
    }
}

/// Why a use of the name in this role is refused, in a scope of this kind, which holds this of the name. None exactly
/// where it is allowed.
///
/// # Errors
/// There is no memory for the refusal.
pub fn refused_use(
    alloc: Global,
    kind: SymbolTableType,
    entry: Option<Entry>,
    name: &Text,
    role: Role,
) -> Result<Option<Refusal>, AllocError>
    ensures { IfOk result (λ refusal. refusal ≡ refused_use kind entry name.now role) }
{
    match role {
        Role::Global => refused_global(alloc, name, entry),
        Role::Nonlocal => refused_nonlocal(alloc, kind, name, entry),
        _ => Ok(refused_plain(bits_of(entry) | role.flags())),
    }
}
