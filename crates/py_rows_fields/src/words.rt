//! Words that stand for something.

/// Leaves with the value of the first of some words that `$word`, which is bytes, is equal to, or else gives none:
/// `find_word!(word; b"And" => BoolOp::And, b"Or" => BoolOp::Or,)`. Bytes are compared, and not texts: those of another
/// length, or that differ in the first four, cost no call.
macro_rules! find_word {
    ($word:expr; $($text:literal => $value:expr,)+) => {{
        $(if $word == $text.as_slice() {
            return Some($value);
        })+
        None
    }};
}

pub(crate) use find_word;
