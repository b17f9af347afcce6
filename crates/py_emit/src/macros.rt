//! The two ways in which code above appends an instruction, or leaves with a fault.

/// Appends an instruction at the present location, or leaves with out of memory: `emit!(em, Instruction::Pop)`, with an
/// operand `emit!(em, Instruction::BuildList, count)`, with the block that it jumps to `emit!(em, Instruction::Jump => end)`.
#[macro_export]
macro_rules! emit {
    ($em:expr, $instr:expr) => {
        $em.emit_arg($instr, 0)?
    };
    ($em:expr, $instr:expr => $target:expr) => {
        $em.emit_jump($instr, $target)?
    };
    ($em:expr, $instr:expr, $arg:expr) => {
        $em.emit_arg($instr, $arg)?
    };
}

/// Leaves with a fault at the present location: `refuse!(em, CodegenErrorType::InvalidBreak)`, or with a SyntaxError by
/// its text: `refuse!(em, SyntaxError: "cannot assign to __debug__")`.
#[macro_export]
macro_rules! refuse {
    ($em:expr, SyntaxError: $text:expr) => {
        return Err($em.syntax_error($text))
    };
    ($em:expr, $error:expr) => {
        return Err($em.error($error))
    };
}
