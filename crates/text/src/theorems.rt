//! Theorems on texts over every field, each the contract of a function with an empty body.
ghost use Rattle.text.specs.Facts.{LengthIs, ToldApart, Decided, ReadBack, WrittenBack};

use field::Field;

/// How many bytes a table's text has.
pub fn text_lengths<F: Field>()
    ensures length_is { LengthIs F.field }
{}

/// Two tables with one text are the same table.
pub fn one_text_one_table<F: Field>()
    ensures told_apart { ToldApart F.field }
{}

/// A text has one verdict, and a refused one has one fault.
pub fn one_verdict<F: Field>()
    ensures decided { Decided F.field }
{}

/// Reading what was written gives the table back.
pub fn read_back<F: Field>()
    ensures read_back { ReadBack F.field F.value }
{}

/// Writing what was read gives the text back.
pub fn written_back<F: Field>()
    ensures written_back { WrittenBack F.field F.value }
{}
