//! Theorems on every packed text, each the contract of a function that does nothing else.
ghost use Rattle.std.specs.Prelude.{◌≡◌, ◌≤◌};
ghost use Rattle.series.specs.Comparing.{Alike};
ghost use Rattle.packing.specs.Theorems.{PackedStates, SamePackedText};

use field::Field;
use series::reduced_form_is_canonical;
use text::theorems::one_text_one_table;

/// No table with the letter count and the weights of a text's table has fewer states than the packed one.
pub fn packed_table_is_smallest<F: Field>()
    ensures no_fewer_states { PackedStates F.field (λ packed other. packed ≤ other) }
{}

/// Two texts have one packed text exactly where their tables have one letter count and weigh every word alike.
pub fn packed_text_is_canonical<F: Field>()
    ensures exactly { SamePackedText F.field (λ S T. (S.letters ≡ T.letters) × Alike F.field S T) }
{
    one_text_one_table::<F>();
    reduced_form_is_canonical::<F>();
}
