//! The flags of a symbol.
ghost use Rattle.std.specs.Prelude.{⊤, ◌≡◌, ◌==◌, [], ◌∷◌, codes, not};
ghost use Rattle.std.specs.Int.RustNames.{bit_and, bit_or};

use bitflags::{Flag, Flags};
use std::ops::BitOr;

/// How a scope uses a name.
#[derive(Clone, Copy, PartialEq, Eq, Debug)]
pub struct SymbolFlags(u16);

impl SymbolFlags {
    /// No flag.
    pub const NONE: SymbolFlags = SymbolFlags(0);

    /// The name is used.
    pub const REFERENCED: SymbolFlags = SymbolFlags(0x001);

    /// The name is assigned.
    pub const ASSIGNED: SymbolFlags = SymbolFlags(0x002);

    /// The name is a parameter.
    pub const PARAMETER: SymbolFlags = SymbolFlags(0x004);

    /// The name is annotated.
    pub const ANNOTATED: SymbolFlags = SymbolFlags(0x008);

    /// The name is imported.
    pub const IMPORTED: SymbolFlags = SymbolFlags(0x010);

    /// The name is declared nonlocal.
    pub const NONLOCAL: SymbolFlags = SymbolFlags(0x020);

    /// Stored by a walrus in this comprehension.
    pub const ASSIGNED_IN_COMPREHENSION: SymbolFlags = SymbolFlags(0x040);

    /// A target of this comprehension.
    pub const ITER: SymbolFlags = SymbolFlags(0x080);

    /// A class that hands the name on to a scope inside.
    pub const FREE_CLASS: SymbolFlags = SymbolFlags(0x100);

    /// ASSIGNED, PARAMETER, IMPORTED and ITER.
    pub const BOUND: SymbolFlags = SymbolFlags(0x096);

    const FLAGS: &'static [Flag<SymbolFlags>] = &[
        Flag {
            name: "REFERENCED",
            value: SymbolFlags::REFERENCED,
        },
        Flag {
            name: "ASSIGNED",
            value: SymbolFlags::ASSIGNED,
        },
        Flag {
            name: "PARAMETER",
            value: SymbolFlags::PARAMETER,
        },
        Flag {
            name: "ANNOTATED",
            value: SymbolFlags::ANNOTATED,
        },
        Flag {
            name: "IMPORTED",
            value: SymbolFlags::IMPORTED,
        },
        Flag {
            name: "NONLOCAL",
            value: SymbolFlags::NONLOCAL,
        },
        Flag {
            name: "ASSIGNED_IN_COMPREHENSION",
            value: SymbolFlags::ASSIGNED_IN_COMPREHENSION,
        },
        Flag {
            name: "ITER",
            value: SymbolFlags::ITER,
        },
        Flag {
            name: "FREE_CLASS",
            value: SymbolFlags::FREE_CLASS,
        },
        Flag {
            name: "BOUND",
            value: SymbolFlags::BOUND,
        },
    ];
}

impl Flags for SymbolFlags {
    type Bits = u16;

    ghost exact = { ⊤ };

    ghost table = { (codes "REFERENCED", 1) ∷ (codes "ASSIGNED", 2) ∷ (codes "PARAMETER", 4) ∷ (codes "ANNOTATED", 8) ∷ (codes "IMPORTED", 16) ∷ (codes "NONLOCAL", 32) ∷ (codes "ASSIGNED_IN_COMPREHENSION", 64) ∷ (codes "ITER", 128) ∷ (codes "FREE_CLASS", 256) ∷ (codes "BOUND", 150) ∷ [] };

    ghost set_of = { λ p. p.0 };

    fn flags<'a>() -> &'a [Flag<SymbolFlags>] {
        SymbolFlags::FLAGS
    }

    fn bits(&self) -> u16 {
        self.0
    }

    fn from_bits_retain(bits: u16) -> SymbolFlags {
        SymbolFlags(bits)
    }
}

impl BitOr for SymbolFlags {
    type Output = SymbolFlags;

    ghost bitor_gives = { λ a b r. r.0 ≡ bit_or a.0 b.0 };

    fn bitor(self, other: SymbolFlags) -> SymbolFlags {
        SymbolFlags(self.0 | other.0)
    }
}
