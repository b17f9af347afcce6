//! Small values: texts, lists, constants, sets of names and of flags, and codes.

use crate::calls::pair;
use crate::emitters::text;
use crate::failure::Failure;
use bitflags::Flags;
use py_base::{List, SourceLocation};
use py_bytecode::{CodeFlags, CodeObject, CodeUnit, ConstantData, Instruction, MakeFunctionFlags};
use py_ir::{ConstantSet, NameSet};
use std::alloc::{AllocError, Global};
use std::hash::{DefaultHasher, Hash, Hasher};

fn hash_of<T: Hash>(value: &T) -> u64 {
    let mut state = DefaultHasher::new();
    value.hash(&mut state);
    state.finish()
}

/// How two texts compare: whether a copy of the first equals it and has its hash, whether it equals the second and is below
/// it, and the texts.
pub fn texts(alloc: Global, rest: &str) -> Result<String, Failure> {
    let (first, second) = pair(rest)?;
    let first = text(alloc, first)?;
    let second = text(alloc, second)?;
    let copy = first.try_clone(alloc)?;
    let is_same = copy == first;
    let is_hashed_alike = hash_of(&copy) == hash_of(&first);
    let compared = format!(in alloc; "{} {} {first:?}", first == second, first < second)?;
    let second = second.into_string();
    Ok(format!(in alloc; "{is_same} {is_hashed_alike}, {compared} {second}")?)
}

/// A list before and after a number is taken out, and the first place of a source.
pub fn lists(alloc: Global, rest: &str) -> Result<String, Failure> {
    let number = rest.parse::<i32>().map_err(|_| Failure::Line)?;
    let mut numbers = List::new(alloc);
    if numbers.push(number).is_err() {
        return Err(Failure::OutOfMemory);
    }
    let count = numbers.len();
    let shown = format!(in alloc; "{numbers:?}")?;
    let taken = numbers.pop();
    let is_empty = numbers.is_empty();
    let start = SourceLocation::default();
    Ok(format!(in alloc;
        "{count} {shown} {taken:?} {is_empty} {}:{}",
        start.row.get(),
        start.column.get()
    )?)
}

/// The constant of a word: `None`, `Ellipsis`, a number, or the code of a name after `code:`.
pub fn constant(alloc: Global, word: &str) -> Result<ConstantData, Failure> {
    if let Some(name) = word.strip_prefix("code:") {
        let mut code = code_of(alloc, "")?;
        code.obj_name = text(alloc, name)?;
        return Ok(ConstantData::Code {
            code: Box::new(alloc, code)?,
        });
    }
    match word {
        "None" => Ok(ConstantData::None),
        "Ellipsis" => Ok(ConstantData::Ellipsis),
        _ => {
            let value = word.parse::<i128>().map_err(|_| Failure::Line)?;
            Ok(ConstantData::Integer { value })
        }
    }
}

/// The code of a lambda that returns None, to which this name comes from outside, or none where it is empty.
pub fn code_of(alloc: Global, free: &str) -> Result<CodeObject, AllocError> {
    let unit = CodeUnit {
        op: Instruction::ReturnConst,
        arg: 0,
    };
    let mut freevars = Vec::new(alloc);
    if !free.is_empty() {
        freevars.push(text(alloc, free)?)?;
    }
    Ok(CodeObject {
        flags: CodeFlags::from_bits_retain(0),
        posonlyarg_count: 0,
        arg_count: 0,
        kwonlyarg_count: 0,
        source_path: text(alloc, "m.py")?,
        first_line_number: None,
        obj_name: text(alloc, "<lambda>")?,
        max_stackdepth: 0,
        instructions: List::from_vec(vec![in alloc; unit]?),
        locations: List::new(alloc),
        constants: List::from_vec(vec![in alloc; ConstantData::None]?),
        names: List::new(alloc),
        varnames: List::new(alloc),
        cellvars: List::new(alloc),
        freevars: List::from_vec(freevars),
        cell2arg: Some(List::new(alloc)),
    })
}

/// Whether two constants hash alike where they are equal.
fn agree(one: &ConstantData, other: &ConstantData) -> bool {
    one != other || hash_of(one) == hash_of(other)
}

/// The place of each constant that is entered into one set, how many there are, and where the one after `?` is found and
/// whether it stands there.
pub fn constants(alloc: Global, rest: &str) -> Result<String, Failure> {
    let (words, asked) = rest.split_once(" ? ").ok_or(Failure::Line)?;
    let asked = constant(alloc, asked)?;
    let mut set = ConstantSet::new(alloc);
    let mut places = String::new(alloc);
    let mut is_alike = true;
    for word in words.split(' ') {
        let value = constant(alloc, word)?;
        is_alike = is_alike && agree(&value, &asked);
        let Ok(place) = set.insert_full(value) else {
            return Err(Failure::OutOfMemory);
        };
        places.push_str(format!(in alloc; "{place} ")?.as_str())?;
    }
    let found = set.get_index_of(&asked);
    let is_held = stands_at(&set, found, &asked);
    let is_past = set.get_index(set.len()).is_none();
    Ok(format!(in alloc;
        "{places}of {}, {found:?} {is_held}, past {is_past}, alike {is_alike}",
        set.len()
    )?)
}

/// Whether the constant stands at this place.
fn stands_at(set: &ConstantSet, place: Option<usize>, constant: &ConstantData) -> bool {
    let Some(place) = place else {
        return false;
    };
    match set.get_index(place) {
        Some(held) => held == constant,
        None => false,
    }
}

/// Enters a name, and answers its place.
pub fn enter(alloc: Global, names: &mut NameSet, name: &str) -> Result<usize, AllocError> {
    match names.insert_full(text(alloc, name)?) {
        Ok(place) => Ok(place),
        Err(_) => Err(AllocError),
    }
}

/// The place of each name that is entered into one set, and then where the one after `?` is looked for and entered.
pub fn names(alloc: Global, rest: &str) -> Result<String, Failure> {
    let (words, asked) = rest.split_once(" ? ").ok_or(Failure::Line)?;
    let mut names = NameSet::new(alloc);
    let mut places = String::new(alloc);
    for word in words.split(' ') {
        let place = enter(alloc, &mut names, word)?;
        let held = names.get_index(place).unwrap_or("-");
        places.push_str(format!(in alloc; "{held} {place}, ")?.as_str())?;
    }
    let count = names.len();
    let found = names.place_of(asked);
    let same = names.get_index_of(&text(alloc, asked)?);
    let Ok(entered) = names.enter(alloc, asked) else {
        return Err(Failure::OutOfMemory);
    };
    Ok(format!(in alloc; "{places}{count} names, {found:?} {same:?} {entered}")?)
}

/// Flags by their bits: whether a code with these is a generator and optimized, and those of the making of a function without
/// its closure.
pub fn flags(alloc: Global, rest: &str) -> Result<String, Failure> {
    let (code, makes) = pair(rest)?;
    let code = CodeFlags::from_bits_retain(code.parse::<u16>().map_err(|_| Failure::Line)?);
    let mut makes = MakeFunctionFlags::from_bits_retain(
        makes.parse::<u8>().map_err(|_| Failure::Line)?,
    );
    makes.remove(MakeFunctionFlags::CLOSURE);
    Ok(format!(in alloc;
        "{} {} {}, {makes:?}",
        code.bits(),
        code.contains(CodeFlags::IS_GENERATOR),
        code.contains(CodeFlags::IS_OPTIMIZED)
    )?)
}
