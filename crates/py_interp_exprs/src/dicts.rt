//! Displays of dicts.
ghost use Rattle.std.specs.Prelude.{◌≡◌, ◌≤◌, ◌⊎◌, [], None, length};
ghost use Rattle.py_tree.specs.View.{dict_tree, expr_tree, exprs, opt_exprs};
ghost use Rattle.py_answers.specs.Log.{Gets, world_of};
ghost use Rattle.py_answers.specs.Told.{value_of, values_of};
ghost use Rattle.py_emission_parts.specs.Elements.{pairs};
ghost use Rattle.py_interp.specs.Doing.{get_entries};
ghost use Rattle.py_interp.specs.Walks.{key_walks, value_walks, walk_expr};
ghost use Rattle.py_interp_exprs.specs.Options.{told_option};
ghost use Rattle.py_interp_exprs.specs.Parts.{add_spread, get_pair};

use crate::expressions::walk_expression;
use crate::groups::close_pairs;
use py_answers::{Halt, Log, StepValue};
use py_interp::Around;
use py_interp::operands::push;
use py_interp::operations::add_map;
use py_tree::{Expr, ExprDict};

#[cycle(walk)]
pub(crate) fn walk_dict(log: &mut Log<'_>, around: Around, e: &ExprDict) -> Result<StepValue, Halt>
    ensures { Gets value_of result (world_of log.new) (walk_expr around (dict_tree e.now) (world_of log.old)) }
{
    walk_entries(log, around, e.keys.as_slice(), e.values.as_slice())
}

// Gets the map of a dict display: that of the first pairs, to which each later run of pairs and each map that is unpacked is
// added.
#[cycle(walk)]
fn walk_entries(
    log: &mut Log<'_>,
    around: Around,
    keys: &[Option<Expr>],
    values: &[Expr],
) -> Result<StepValue, Halt>
    ensures { Gets value_of result (world_of log.new) (get_entries None 0 [] (pairs (key_walks around (opt_exprs expr_tree keys.now)) (value_walks around (exprs expr_tree values.now))) (world_of log.old)) }
{
    let mut map = None;
    let mut count = 0;
    let mut run = Vec::new(log.alloc);
    for i in 0..pair_count(keys, values) {
        let key = &keys[i];
        match key {
            Some(key) => {
                run = walk_pair(log, around, run, key, &values[i])?;
                count += 1;
            }
            None => {
                let added = walk_spread(log, around, map, count, run, &values[i])?;
                map = Some(added);
                count = 0;
                run = Vec::new(log.alloc);
            }
        }
    }
    close_pairs(log, map, count, run)
}

// How many keys have a value beside them.
fn pair_count(keys: &[Option<Expr>], values: &[Expr]) -> usize
    ensures keys { result ≤ length keys.now }
    ensures values { result ≤ length values.now }
    ensures all { (result ≡ length keys.now) ⊎ (result ≡ length values.now) }
{
    let count = keys.len();
    let most = values.len();
    if count < most { count } else { most }
}

// Gets a key and its value after others.
#[cycle(walk)]
fn walk_pair(
    log: &mut Log<'_>,
    around: Around,
    mut run: Vec<StepValue>,
    key: &Expr,
    value: &Expr,
) -> Result<Vec<StepValue>, Halt>
    ensures { Gets (λ v. values_of v.items) result (world_of log.new) (get_pair (values_of run.items) (walk_expr around (expr_tree key.now)) (walk_expr around (expr_tree value.now)) (world_of log.old)) }
{
    let key = walk_expression(log, around, key)?;
    let value = walk_expression(log, around, value)?;
    push(&mut run, key)?;
    push(&mut run, value)?;
    Ok(run)
}

// Adds a run of so many pairs to a map, and then a map that is unpacked.
#[cycle(walk)]
fn walk_spread(
    log: &mut Log<'_>,
    around: Around,
    map: Option<StepValue>,
    count: usize,
    run: Vec<StepValue>,
    value: &Expr,
) -> Result<StepValue, Halt>
    ensures { Gets value_of result (world_of log.new) (add_spread (told_option map) count (values_of run.items) (walk_expr around (expr_tree value.now)) (world_of log.old)) }
{
    let built = close_pairs(log, map, count, run)?;
    let added = walk_expression(log, around, value)?;
    add_map(log, built, added)
}
