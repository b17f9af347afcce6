//! Operands: their bytes, and the kinds of them.
ghost use Rattle.std.specs.Prelude.{◌≡◌, ◌<◌, ◌+◌, ◌*◌};
ghost use Rattle.py_bytecode.specs.Operands.{byte_of, units_for};

use crate::Instruction;

/// The operand of an instruction.
#[derive(Clone, Copy, PartialEq, Eq, Debug)]
pub struct OpArg(pub u32);

impl OpArg {
    /// How many units the operand takes: 1 up to 0xff, 2 up to 0xffff, 3 up to 0xffffff, else 4.
    pub fn instr_size(self) -> u32
        ensures { result ≡ units_for self.0 }
    {
        if self.0 <= 0xff {
            1
        } else if self.0 <= 0xffff {
            2
        } else if self.0 <= 0xff_ffff {
            3
        } else {
            4
        }
    }

    /// Byte `i` of the operand; byte 0 is the lowest.
    pub fn byte_at(self, i: u32) -> u8
        requires { i < 4 }
        ensures { result ≡ byte_of i self.0 }
    {
        match i {
            0 => (self.0 % 256) as u8,
            1 => (self.0 / 256 % 256) as u8,
            2 => (self.0 / 65536 % 256) as u8,
            _ => (self.0 / 16_777_216 % 256) as u8,
        }
    }
}

/// One unit of code: an instruction, and one byte of its operand.
#[derive(Clone, Copy, PartialEq, Eq, Hash, Debug)]
pub struct CodeUnit {
    pub op: Instruction,
    pub arg: u8,
}

/// The place of a unit, as a jump names it.
#[derive(Clone, Copy, PartialEq, Eq, Debug)]
pub struct Label(pub u32);

/// How many elements an unpacking with a star takes before the star and after it.
#[derive(Clone, Copy, PartialEq, Eq, Debug)]
pub struct UnpackExArgs {
    pub before: u8,
    pub after: u8,
}

impl UnpackExArgs {
    /// The operand of `UnpackEx`.
    pub fn arg(self) -> OpArg
        ensures { result.0 ≡ self.before + 256 * self.after }
    {
        OpArg(self.before as u32 + 256 * self.after as u32)
    }
}
