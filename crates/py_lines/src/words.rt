//! The words for modes and levels.
ghost use Rattle.std.specs.Prelude.{◌≡◌};
ghost use Rattle.py_lines.specs.Words.{level_of, mode_of};

use py_tree::Mode;

/// The mode that a word says.
pub fn mode_of(word: &str) -> Option<Mode>
    ensures { result ≡ mode_of word.now }
{
    match word {
        "exec" => Some(Mode::Exec),
        "eval" => Some(Mode::Eval),
        "single" => Some(Mode::Single),
        "block" => Some(Mode::BlockExpr),
        _ => None,
    }
}

/// The level that a word says.
pub fn level_of(word: &str) -> Option<u8>
    ensures { result ≡ level_of word.now }
{
    match word {
        "0" => Some(0),
        "1" => Some(1),
        "2" => Some(2),
        _ => None,
    }
}
