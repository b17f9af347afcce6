//! Codes among the constants of codes.
ghost use Rattle.std.specs.Prelude.{◌≡◌, option_map};
ghost use Rattle.py_bytecode.specs.View.{constant, object};
ghost use Rattle.py_trace.specs.Among.{code_along, code_at, code_in};

use py_bytecode::{CodeObject, ConstantData};

/// The code at the end of a path that begins at this one.
pub fn code_along<'c>(code: &'c CodeObject, path: &[usize]) -> Option<&'c CodeObject>
    ensures { option_map (λ c. object c.now) result ≡ code_along path.now (object code.now) }
{
    let mut reached = code;
    for place in path {
        reached = code_at(reached, *place)?;
    }
    Some(reached)
}

/// The code at a place among the constants of this one.
fn code_at(code: &CodeObject, place: usize) -> Option<&CodeObject>
    ensures { option_map (λ c. object c.now) result ≡ code_at place (object code.now) }
{
    code_in(code.constants.get(place)?)
}

/// The code that a constant is.
fn code_in(item: &ConstantData) -> Option<&CodeObject>
    ensures { option_map (λ c. object c.now) result ≡ code_in (constant item.now) }
{
    match item {
        ConstantData::Code { code } => Some(code),
        ConstantData::None
        | ConstantData::Boolean { .. }
        | ConstantData::Str { .. }
        | ConstantData::Bytes { .. }
        | ConstantData::Integer { .. }
        | ConstantData::Tuple { .. }
        | ConstantData::Ellipsis => None,
    }
}
