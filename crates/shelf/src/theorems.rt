//! A theorem on the calls over every lawful field, the contract of a function with an empty body.
ghost use Rattle.shelf.specs.Clearing.{ClearsAsCalled};

use field::Field;

/// Clear is handed the entries alone, and no field: what it does with them is what the call clear does on a shelf over
/// any field.
pub fn clear_does_the_call<F: Field>()
    ensures clears_as_called { ClearsAsCalled F.field F.value }
{}
