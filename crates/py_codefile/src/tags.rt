//! The kinds of constants.
ghost use Rattle.std.specs.Prelude.{◌≡◌, slice_get};
ghost use Rattle.py_codefile.specs.Tags.{tag_number, tags};

/// What the first byte of a constant says of what follows. The byte is the place of the variant, from 0.
#[derive(Clone, Copy, PartialEq, Eq, Debug)]
pub enum Tag {
    None,
    False,
    True,
    Str,
    Bytes,
    Integer,
    Tuple,
    Ellipsis,
    Code,
}

/// The kind of each number.
const TAGS: [Tag; 9] = [
    Tag::None,
    Tag::False,
    Tag::True,
    Tag::Str,
    Tag::Bytes,
    Tag::Integer,
    Tag::Tuple,
    Tag::Ellipsis,
    Tag::Code,
];

impl Tag {
    /// The byte that stands for the kind.
    pub fn number(self) -> u8
        ensures { result ≡ tag_number self }
    {
        self as u8
    }

    /// The kind that a byte stands for. None above 8.
    pub fn from_number(number: u8) -> Option<Tag>
        ensures { result ≡ slice_get tags number }
    {
        TAGS.get(number as usize).copied()
    }
}
