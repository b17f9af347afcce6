//! Laws of code objects. The bodies do nothing.
ghost use Rattle.std.specs.Prelude.{ℕ};
ghost use Rattle.py_bytecode.specs.Effects.{EffectsFit};
ghost use Rattle.py_bytecode.specs.Laws.{ConstantsKeepPlaces, EqualIsSame};

/// Two constants are equal exactly where they are the same, and so are two code objects; where they lie in memory
/// does not count.
pub fn equal_is_same()
    ensures { EqualIsSame }
{}

/// A constant that is entered among others where none is equal goes last, and else the others stay as they are; it
/// then stands at its place, and each other where it stood.
pub fn constants_keep_places()
    ensures { ConstantsKeepPlaces }
{}

/// Where the machine takes an operand, the values that the instruction gives less those that it takes are its
/// `stack_effect` without a jump.
pub fn effects_fit()
    ensures { EffectsFit ℕ }
{}
