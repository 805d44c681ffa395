//! A theorem on numbers in columns, the contract of a function with an empty body.
ghost use Rattle.columns.specs.Facts.{LegalIs};

/// Which bytes are the columns of a number.
pub fn legal_numbers()
    ensures legal { LegalIs }
{}
