//! The law of rows. Its body does nothing.
ghost use Rattle.py_rows_law.specs.Format.{FormatIsRead};

/// The bytes have the same tree by the format of rows as by the reader's own definition, or the same is wrong with them first.
/// So `read_rows` answers what the format says.
pub fn format_is_read()
    ensures { FormatIsRead }
{}
