//! The instructions of a code in the order of its units.

ghost use Rattle.std.specs.Prelude.{◌≡◌, ◌+◌, ◌*◌, ◌%◌, ◌^◌, IfOk};
ghost use Rattle.std.specs.Option.{option_copied};
ghost use Rattle.py_bytecode.specs.Units.{is_prefix};
ghost use Rattle.py_well_formed.specs.Lines.{before, lines_of};

use py_bytecode::{CodeUnit, Instruction};
use std::alloc::{AllocError, Global};

/// An instruction with its whole operand, and the place of the unit at which it begins.
#[derive(Clone, Copy, Debug)]
pub struct Line {
    pub op: Instruction,
    /// The last four bytes, those of the prefixes first.
    pub operand: u32,
    pub unit: usize,
}

fn is_prefix(op: Instruction) -> bool
    ensures { result ≡ is_prefix op }
{
    matches!(op, Instruction::ExtendedArg)
}

// An operand with one byte more; the last four bytes count.
fn with_byte(high: u32, byte: u8) -> u32
    ensures { result ≡ (high * 256 + byte) % 2 ^ 32 }
{
    let wide = u64::from(high) * 256 + u64::from(byte);
    (wide % (1 << 32)) as u32
}

/// The instructions of units, in order.
///
/// # Errors
/// There is no memory for as many instructions as there are units.
pub fn lines_of(alloc: Global, units: &[CodeUnit]) -> Result<Vec<Line>, AllocError>
    ensures { IfOk result (λ lines. lines.items ≡ lines_of units.now) }
{
    let mut lines = Vec::new(alloc);
    let mut high = 0;
    let mut start = 0;
    for (place, unit) in units.iter().enumerate() {
        let operand = with_byte(high, unit.arg);
        if is_prefix(unit.op) {
            high = operand;
        } else {
            lines.push(Line {
                op: unit.op,
                operand,
                unit: start,
            })?;
            high = 0;
            start = place + 1;
        }
    }
    Ok(lines)
}

/// The line so many before another; None where there are fewer.
pub fn before(lines: &[Line], i: usize, back: usize) -> Option<Line>
    ensures { result ≡ before lines.now i back }
{
    if back <= i {
        lines.get(i - back).copied()
    } else {
        None
    }
}
