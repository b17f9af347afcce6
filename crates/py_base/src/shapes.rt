//! What makes a tree malformed.
ghost use Rattle.std.specs.Prelude.{◌≡◌};
ghost use Rattle.py_base.specs.Shapes.{shape_name};

/// A shape that no tree of a program has.
#[derive(Clone, Copy, PartialEq, Eq, Debug)]
pub enum Malformed {
    /// A function type, or an interactive input that is not compiled as one.
    WrongMode,
    /// A boolean operation without values, or a comparison without operators.
    NoOperand,
    /// An assignment without targets.
    NoTarget,
    /// A comprehension without generators.
    NoGenerator,
    /// Two lists of one node that belong together differ in length.
    UnevenLists,
    /// A raise with a cause and no exception.
    CauseAlone,
    /// A handler with a name and no type.
    NameWithoutType,
    /// An empty identifier, or an empty segment of an import path.
    EmptyName,
    /// A dot in an identifier that is no import path.
    StrayDot,
    /// Two parameters of one function have one name.
    SameParameter,
    /// A positional parameter without default after one with a default.
    DefaultOrder,
}

impl Malformed {
    /// The name of the shape, as messages show it.
    pub fn name(self) -> &'static str
        ensures { result.now ≡ shape_name self }
    {
        match self {
            Malformed::WrongMode => "WrongMode",
            Malformed::NoOperand => "NoOperand",
            Malformed::NoTarget => "NoTarget",
            Malformed::NoGenerator => "NoGenerator",
            Malformed::UnevenLists => "UnevenLists",
            Malformed::CauseAlone => "CauseAlone",
            Malformed::NameWithoutType => "NameWithoutType",
            Malformed::EmptyName => "EmptyName",
            Malformed::StrayDot => "StrayDot",
            Malformed::SameParameter => "SameParameter",
            Malformed::DefaultOrder => "DefaultOrder",
        }
    }
}
