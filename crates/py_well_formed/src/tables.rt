//! The tables of a code: its parameters, cells and free names.

ghost use Rattle.std.specs.Prelude.{◌≡◌, false, length, true, nat_lt};
ghost use Rattle.std.specs.List.{list_all};
ghost use Rattle.py_bytecode.specs.Objects.{head};
ghost use Rattle.py_bytecode.specs.View.{head_of, object};
ghost use Rattle.py_well_formed.specs.Conditions.{cell_conditions, first_unmet, parameter_conditions, table_fault};
ghost use Rattle.py_well_formed.specs.Tables.{are_entries, has_entries, has_flag, is_entry, parameters, repeats, shares, stands_in};

use crate::fault::FormFaultKind;
use bitflags::Flags;
use py_base::{List, Text};
use py_bytecode::{CodeFlags, CodeObject};

/// Whether a code has a flag.
pub fn has_flag(code: &CodeObject, flag: CodeFlags) -> bool
    ensures { result ≡ has_flag code.now.flags.0 flag.0 }
{
    code.flags.contains(flag)
}

// How many parameters a code has.
fn parameters(code: &CodeObject) -> u64
    ensures { result ≡ parameters (head_of code.now) }
{
    let mut count = u64::from(code.arg_count) + u64::from(code.kwonlyarg_count);
    if has_flag(code, CodeFlags::HAS_VARARGS) {
        count += 1;
    }
    if has_flag(code, CodeFlags::HAS_VARKEYWORDS) {
        count += 1;
    }
    count
}

// Whether an entry is -1 or the place of one of so many parameters.
fn is_entry(count: u64, entry: i32) -> bool
    ensures { result ≡ is_entry count entry }
{
    if entry < 0 {
        entry == -1
    } else {
        (entry as u64) < count
    }
}

fn are_all_entries(count: u64, entries: &[i32]) -> bool
    ensures { result ≡ list_all (is_entry count) entries.now }
{
    for entry in entries {
        if !is_entry(count, *entry) {
            return false;
        }
    }
    true
}

fn has_entries(cells: usize, entries: &Option<List<i32>>) -> bool
    ensures { result ≡ has_entries cells entries.now }
{
    match entries {
        None => true,
        Some(entries) => entries.len() == cells,
    }
}

fn are_entries(count: u64, entries: &Option<List<i32>>) -> bool
    ensures { result ≡ are_entries count entries.now }
{
    match entries {
        None => true,
        Some(entries) => are_all_entries(count, entries.as_slice()),
    }
}

fn stands_in(names: &[Text], name: &Text) -> bool
    ensures { result ≡ stands_in names.now name.now }
{
    for other in names {
        if *name == *other {
            return true;
        }
    }
    false
}

// Whether a name stands twice.
fn repeats(names: &[Text]) -> bool
    ensures { result ≡ repeats names.now }
{
    for (i, name) in names.iter().enumerate() {
        if stands_in(&names[i + 1..], name) {
            return true;
        }
    }
    false
}

// Whether a name stands in both.
fn shares(names: &[Text], others: &[Text]) -> bool
    ensures { result ≡ shares names.now others.now }
{
    for name in names {
        if stands_in(others, name) {
            return true;
        }
    }
    false
}

// What is wrong with the parameters or the locations first.
fn parameter_fault(code: &CodeObject) -> Option<FormFaultKind>
    ensures { result ≡ first_unmet (parameter_conditions (head_of code.now)) }
{
    if code.posonlyarg_count > code.arg_count {
        return Some(FormFaultKind::PositionalOnly);
    }
    if parameters(code) > code.varnames.len() as u64 {
        return Some(FormFaultKind::FewLocals);
    }
    if code.locations.len() != code.instructions.len() {
        return Some(FormFaultKind::Locations);
    }
    None
}

// What is wrong with the cells or the free names first.
fn cell_fault(code: &CodeObject) -> Option<FormFaultKind>
    ensures { result ≡ first_unmet (cell_conditions (head_of code.now)) }
{
    if !has_entries(code.cellvars.len(), &code.cell2arg) {
        return Some(FormFaultKind::CellEntries);
    }
    if !are_entries(parameters(code), &code.cell2arg) {
        return Some(FormFaultKind::CellEntry);
    }
    if repeats(code.cellvars.as_slice()) {
        return Some(FormFaultKind::RepeatedCell);
    }
    if repeats(code.freevars.as_slice()) {
        return Some(FormFaultKind::RepeatedFree);
    }
    if shares(code.cellvars.as_slice(), code.freevars.as_slice()) {
        return Some(FormFaultKind::CellIsFree);
    }
    None
}

/// The first fault of the tables of a code.
pub fn table_fault(code: &CodeObject) -> Option<FormFaultKind>
    ensures { result ≡ table_fault (head_of code.now) }
{
    match parameter_fault(code) {
        Some(kind) => Some(kind),
        None => cell_fault(code),
    }
}
