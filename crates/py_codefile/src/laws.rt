//! The law of the format.
ghost use Rattle.py_codefile.specs.Laws.{OneCode, OneSpelling};

/// Each code within the limits has exactly one spelling, and no two codes share one.
pub fn spellings_and_codes()
    ensures one_spelling { OneSpelling }
    ensures one_code { OneCode }
{}
