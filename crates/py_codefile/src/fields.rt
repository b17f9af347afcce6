//! The lists and small fields of a code, read one after the other.
ghost use Rattle.std.specs.Prelude.{◌≡◌, map};
ghost use Rattle.std.specs.Int.{w32};
ghost use Rattle.py_codefile.specs.Places.{Gives};
ghost use Rattle.py_codefile.specs.Reading.{byte_at, cells_at, line_at, list_at, location_at, many, names_at, opcode_at, positive_at, signed_at, text_at, unit_at};

use crate::error::ReadCodeError;
use crate::opcodes::instruction_of;
use crate::reader::Reader;
use py_base::{List, OneIndexed, SourceLocation, Text};
use py_bytecode::{CodeUnit, Instruction};
use std::alloc::Global;

/// A list of bytes: a count, and then the bytes. What is taken of memory grows with the bytes that are there, and
/// not with the count; so in each list below.
///
/// # Errors
/// `Truncated` where the bytes end within it, or what is wrong with it, at the offset of the first byte of the field;
/// there may be no memory.
#[tactic(auto, unfolding(crate::specs::Reading::list_at))]
pub fn byte_list(alloc: Global, reader: &mut Reader<'_>) -> Result<List<u8>, ReadCodeError>
    ensures { Gives (λ xs. (xs, reader.new)) result (list_at byte_at reader.old) }
{
    let count = reader.u32()?;
    bytes(alloc, reader, count)
}

fn bytes(alloc: Global, reader: &mut Reader<'_>, count: u32) -> Result<List<u8>, ReadCodeError>
    ensures { Gives (λ xs. (xs, reader.new)) result (many byte_at count reader.old) }
{
    let mut items = Vec::new(alloc);
    for _ in 0..count {
        items.push(reader.byte()?)?;
    }
    Ok(List::from_vec(items))
}

/// A list of texts.
///
/// # Errors
/// `Truncated` where the bytes end within it, or what is wrong with it, at the offset of the first byte of the field;
/// there may be no memory.
#[tactic(auto, unfolding(crate::specs::Reading::names_at, crate::specs::Reading::list_at))]
pub fn names(alloc: Global, reader: &mut Reader<'_>) -> Result<List<Text>, ReadCodeError>
    ensures { Gives (λ xs. (xs, reader.new)) result (names_at reader.old) }
{
    let count = reader.u32()?;
    texts(alloc, reader, count)
}

fn texts(alloc: Global, reader: &mut Reader<'_>, count: u32) -> Result<List<Text>, ReadCodeError>
    ensures { Gives (λ xs. (xs, reader.new)) result (many text_at count reader.old) }
{
    let mut items = Vec::new(alloc);
    for _ in 0..count {
        items.push(reader.text(alloc)?)?;
    }
    Ok(List::from_vec(items))
}

/// A list of units, each an instruction's number and a byte.
///
/// # Errors
/// `Truncated` where the bytes end within it, or what is wrong with it, at the offset of the first byte of the field;
/// there may be no memory.
#[inline(never)]
#[tactic(auto, unfolding(crate::specs::Reading::list_at))]
pub fn unit_list(alloc: Global, reader: &mut Reader<'_>) -> Result<List<CodeUnit>, ReadCodeError>
    ensures { Gives (λ xs. (xs, reader.new)) result (list_at unit_at reader.old) }
{
    let count = reader.u32()?;
    units(alloc, reader, count)
}

fn units(
    alloc: Global,
    reader: &mut Reader<'_>,
    count: u32,
) -> Result<List<CodeUnit>, ReadCodeError>
    ensures { Gives (λ xs. (xs, reader.new)) result (many unit_at count reader.old) }
{
    let mut items = Vec::new(alloc);
    for _ in 0..count {
        items.push(unit(reader)?)?;
    }
    Ok(List::from_vec(items))
}

#[tactic(auto, unfolding(crate::specs::Reading::unit_at))]
fn unit(reader: &mut Reader<'_>) -> Result<CodeUnit, ReadCodeError>
    ensures { Gives (λ u. (u, reader.new)) result (unit_at reader.old) }
{
    let op = opcode(reader)?;
    let arg = reader.byte()?;
    Ok(CodeUnit { op, arg })
}

#[tactic(auto, unfolding(crate::specs::Reading::opcode_at))]
fn opcode(reader: &mut Reader<'_>) -> Result<Instruction, ReadCodeError>
    ensures { Gives (λ op. (op, reader.new)) result (opcode_at reader.old) }
{
    let at = reader.at();
    let number = reader.byte()?;
    match instruction_of(number) {
        Some(op) => Ok(op),
        None => Err(ReadCodeError::BadOpcode { at }),
    }
}

/// A list of locations, each a row and a column.
///
/// # Errors
/// `Truncated` where the bytes end within it, or what is wrong with it, at the offset of the first byte of the field;
/// there may be no memory.
#[inline(never)]
#[tactic(auto, unfolding(crate::specs::Reading::list_at))]
pub fn location_list(
    alloc: Global,
    reader: &mut Reader<'_>,
) -> Result<List<SourceLocation>, ReadCodeError>
    ensures { Gives (λ xs. (xs, reader.new)) result (list_at location_at reader.old) }
{
    let count = reader.u32()?;
    locations(alloc, reader, count)
}

fn locations(
    alloc: Global,
    reader: &mut Reader<'_>,
    count: u32,
) -> Result<List<SourceLocation>, ReadCodeError>
    ensures { Gives (λ xs. (xs, reader.new)) result (many location_at count reader.old) }
{
    let mut items = Vec::new(alloc);
    for _ in 0..count {
        items.push(location(reader)?)?;
    }
    Ok(List::from_vec(items))
}

#[tactic(auto, unfolding(crate::specs::Reading::location_at))]
fn location(reader: &mut Reader<'_>) -> Result<SourceLocation, ReadCodeError>
    ensures { Gives (λ l. (l, reader.new)) result (location_at reader.old) }
{
    let row = positive(reader)?;
    let column = positive(reader)?;
    Ok(SourceLocation { row, column })
}

/// A row or a column, which is not 0.
#[tactic(auto, unfolding(crate::specs::Reading::positive_at))]
fn positive(reader: &mut Reader<'_>) -> Result<OneIndexed, ReadCodeError>
    ensures { Gives (λ n. (n, reader.new)) result (positive_at reader.old) }
{
    let at = reader.at();
    let number = reader.u32()?;
    match OneIndexed::new(number) {
        Some(number) => Ok(number),
        None => Err(ReadCodeError::ZeroLocation { at }),
    }
}

/// The row in which a scope begins; 0 stands for none.
///
/// # Errors
/// `Truncated` where the bytes end within it, or what is wrong with it, at the offset of the first byte of the field;
/// there may be no memory.
#[tactic(auto, unfolding(crate::specs::Reading::line_at))]
pub fn line(reader: &mut Reader<'_>) -> Result<Option<OneIndexed>, ReadCodeError>
    ensures { Gives (λ n. (n, reader.new)) result (line_at reader.old) }
{
    let number = reader.u32()?;
    Ok(OneIndexed::new(number))
}

/// Which parameters the cells are: a byte 0, or a byte 1 and the list of their places.
///
/// # Errors
/// `Truncated` where the bytes end within it, or what is wrong with it, at the offset of the first byte of the field;
/// there may be no memory.
#[tactic(auto, unfolding(crate::specs::Reading::cells_at, crate::specs::Reading::after_cells_byte))]
pub fn cells(alloc: Global, reader: &mut Reader<'_>) -> Result<Option<List<i32>>, ReadCodeError>
    ensures { Gives (λ xs. (xs, reader.new)) result (cells_at reader.old) }
{
    let at = reader.at();
    match reader.byte()? {
        0 => Ok(None),
        1 => Ok(Some(place_list(alloc, reader)?)),
        _ => Err(ReadCodeError::BadTag { at }),
    }
}

#[tactic(auto, unfolding(crate::specs::Reading::list_at))]
fn place_list(alloc: Global, reader: &mut Reader<'_>) -> Result<List<i32>, ReadCodeError>
    ensures { Gives (λ xs. (xs, reader.new)) result (list_at (signed_at w32) reader.old) }
{
    let count = reader.u32()?;
    places(alloc, reader, count)
}

fn places(alloc: Global, reader: &mut Reader<'_>, count: u32) -> Result<List<i32>, ReadCodeError>
    ensures { Gives (λ xs. (xs, reader.new)) result (many (signed_at w32) count reader.old) }
{
    let mut items = Vec::new(alloc);
    for _ in 0..count {
        items.push(reader.i32()?)?;
    }
    Ok(List::from_vec(items))
}
