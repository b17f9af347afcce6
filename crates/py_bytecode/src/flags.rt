//! The flags of a code object and of a function that is made.
ghost use Rattle.std.specs.Prelude.{⊤, ◌≡◌, [], ◌∷◌, codes};
ghost use Rattle.std.specs.Int.RustNames.{bit_or};

use bitflags::{Flag, Flags};
use std::ops::BitOr;

/// What holds of a whole code object.
#[derive(Clone, Copy, PartialEq, Eq, Hash, Debug)]
pub struct CodeFlags(u16);

impl CodeFlags {
    /// The scope makes names of its own.
    pub const NEW_LOCALS: CodeFlags = CodeFlags(0x01);
    /// A call gives a generator.
    pub const IS_GENERATOR: CodeFlags = CodeFlags(0x02);
    /// There is a parameter for further positional arguments.
    pub const HAS_VARARGS: CodeFlags = CodeFlags(0x08);
    /// There is a parameter for further keyword arguments.
    pub const HAS_VARKEYWORDS: CodeFlags = CodeFlags(0x10);
    /// Local names have places.
    pub const IS_OPTIMIZED: CodeFlags = CodeFlags(0x20);

    const FLAGS: &'static [Flag<CodeFlags>] = &[
        Flag {
            name: "NEW_LOCALS",
            value: CodeFlags::NEW_LOCALS,
        },
        Flag {
            name: "IS_GENERATOR",
            value: CodeFlags::IS_GENERATOR,
        },
        Flag {
            name: "HAS_VARARGS",
            value: CodeFlags::HAS_VARARGS,
        },
        Flag {
            name: "HAS_VARKEYWORDS",
            value: CodeFlags::HAS_VARKEYWORDS,
        },
        Flag {
            name: "IS_OPTIMIZED",
            value: CodeFlags::IS_OPTIMIZED,
        },
    ];
}

impl Flags for CodeFlags {
    type Bits = u16;

    ghost exact = { ⊤ };

    ghost table = { (codes "NEW_LOCALS", 1) ∷ (codes "IS_GENERATOR", 2) ∷ (codes "HAS_VARARGS", 8) ∷ (codes "HAS_VARKEYWORDS", 16) ∷ (codes "IS_OPTIMIZED", 32) ∷ [] };

    ghost set_of = { λ f. f.0 };

    fn flags<'a>() -> &'a [Flag<CodeFlags>] {
        CodeFlags::FLAGS
    }

    fn bits(&self) -> u16 {
        self.0
    }

    fn from_bits_retain(bits: u16) -> CodeFlags {
        CodeFlags(bits)
    }
}

impl BitOr for CodeFlags {
    type Output = CodeFlags;

    ghost bitor_gives = { λ a b r. r.0 ≡ bit_or a.0 b.0 };

    fn bitor(self, other: CodeFlags) -> CodeFlags {
        CodeFlags(self.0 | other.0)
    }
}

/// What `MakeFunction` takes from the stack beside the code and the name.
#[derive(Clone, Copy, PartialEq, Eq, Debug)]
pub struct MakeFunctionFlags(u8);

impl MakeFunctionFlags {
    /// A tuple of cells.
    pub const CLOSURE: MakeFunctionFlags = MakeFunctionFlags(0x01);
    /// A map of annotations.
    pub const ANNOTATIONS: MakeFunctionFlags = MakeFunctionFlags(0x02);
    /// A map of defaults of keyword-only parameters.
    pub const KW_ONLY_DEFAULTS: MakeFunctionFlags = MakeFunctionFlags(0x04);
    /// A tuple of defaults of positional parameters.
    pub const DEFAULTS: MakeFunctionFlags = MakeFunctionFlags(0x08);
    /// A tuple of type parameters.
    pub const TYPE_PARAMS: MakeFunctionFlags = MakeFunctionFlags(0x10);

    const FLAGS: &'static [Flag<MakeFunctionFlags>] = &[
        Flag {
            name: "CLOSURE",
            value: MakeFunctionFlags::CLOSURE,
        },
        Flag {
            name: "ANNOTATIONS",
            value: MakeFunctionFlags::ANNOTATIONS,
        },
        Flag {
            name: "KW_ONLY_DEFAULTS",
            value: MakeFunctionFlags::KW_ONLY_DEFAULTS,
        },
        Flag {
            name: "DEFAULTS",
            value: MakeFunctionFlags::DEFAULTS,
        },
        Flag {
            name: "TYPE_PARAMS",
            value: MakeFunctionFlags::TYPE_PARAMS,
        },
    ];
}

impl Flags for MakeFunctionFlags {
    type Bits = u8;

    ghost exact = { ⊤ };

    ghost table = { (codes "CLOSURE", 1) ∷ (codes "ANNOTATIONS", 2) ∷ (codes "KW_ONLY_DEFAULTS", 4) ∷ (codes "DEFAULTS", 8) ∷ (codes "TYPE_PARAMS", 16) ∷ [] };

    ghost set_of = { λ f. f.0 };

    fn flags<'a>() -> &'a [Flag<MakeFunctionFlags>] {
        MakeFunctionFlags::FLAGS
    }

    fn bits(&self) -> u8 {
        self.0
    }

    fn from_bits_retain(bits: u8) -> MakeFunctionFlags {
        MakeFunctionFlags(bits)
    }
}

impl BitOr for MakeFunctionFlags {
    type Output = MakeFunctionFlags;

    ghost bitor_gives = { λ a b r. r.0 ≡ bit_or a.0 b.0 };

    fn bitor(self, other: MakeFunctionFlags) -> MakeFunctionFlags {
        MakeFunctionFlags(self.0 | other.0)
    }
}
