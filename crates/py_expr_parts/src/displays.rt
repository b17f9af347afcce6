//! The entries of dict displays, and the maps of runs of pairs.
ghost use Rattle.std.specs.Prelude.{◌≡◌, ◌≤◌, ◌<◌, ◌⊎◌, length};
ghost use Rattle.py_tree.specs.View.{expr_tree, opt_expr};
ghost use Rattle.py_emission_parts.specs.EmissionParts.{values};
ghost use Rattle.py_emit.specs.States.{Emits};
ghost use Rattle.py_expr_parts.specs.Dicts.{begun_by, closed_pairs, entry_ended, pairs_by};

use py_base::CodegenError;
use py_bytecode::Instruction;
use py_emit::{Emitter, emit};
use py_tree::{Expr, ExprDict};

/// How many values of a dict display have a key or none beside them.
pub fn pair_count(e: &ExprDict) -> usize
    ensures keys { result ≤ length e.now.keys }
    ensures values { result ≤ length e.now.values }
    ensures all { (result ≡ length e.now.keys) ⊎ (result ≡ length e.now.values) }
{
    let keys = e.keys.len();
    let values = e.values.len();
    if keys < values { keys } else { values }
}

/// Emits what adds an unpacked value to the map below it; nothing after a value with a key.
///
/// # Errors
/// OutOfMemory alone.
pub fn end_entry(em: &mut Emitter, key: &Option<Expr>) -> Result<(), CodegenError>
    ensures { Emits result (entry_ended (opt_expr expr_tree key.now)) em.old em.new }
{
    match key {
        Some(_) => Ok(()),
        None => {
            emit!(em, Instruction::DictUpdate);
            Ok(())
        }
    }
}

/// Whether the first map is built after an entry of this key, where it was so before or not.
pub fn begun_after(key: &Option<Expr>, begun: bool) -> bool
    ensures { result ≡ begun_by begun key.now }
{
    if key.is_none() { true } else { begun }
}

/// How many pairs stand together after an entry, where so many stand before it.
pub fn run_after(key: &Option<Expr>, run: usize) -> usize
    requires { run < 0xffff_ffff_ffff_ffff }
    ensures { result ≡ pairs_by run key.now }
{
    if key.is_none() { 0 } else { run + 1 }
}

/// Makes a map of a run of so many pairs: the first map, or one that is added to it, where there are any.
///
/// # Errors
/// OutOfMemory alone.
pub fn close_pairs(em: &mut Emitter, begun: bool, run: usize) -> Result<(), CodegenError>
    ensures { Emits result (closed_pairs begun run) em.old em.new }
{
    if begun && run == 0 {
        return Ok(());
    }
    em.emit_count(Instruction::BuildMap, run)?;
    if begun {
        emit!(em, Instruction::DictUpdate);
    }
    Ok(())
}
