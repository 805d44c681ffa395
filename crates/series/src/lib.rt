//! The mathematics of sequence tables, over every lawful field. A theorem is a function that does nothing: its promise is
//! the theorem, which the check therefore asks for. The statements are in specs/Theorems.antt.
#![tactic(auto)]

ghost use Rattle.std.specs.Prelude.{◌≡◌, ℕ, ◌+◌, ◌*◌, ◌<◌, ◌≤◌, ◌⊎◌, ◌∷◌, ◌++◌, reverse};
ghost use Rattle.series.specs.Words.{◌≺◌};
ghost use Rattle.series.specs.WordOrders.{WordOrder};
ghost use Rattle.series.specs.Tables.{SameTable, pair_step, left_outcome, right_outcome};
ghost use Rattle.series.specs.Comparing.{Kept, LeastDifference};
ghost use Rattle.series.specs.Operations.{sum_table, scaled_table, product_table, after_table, turned_table};
ghost use Rattle.series.specs.Theorems.{Combines, Maps, Rereads, DependWhere, CombinationKnown, OnlyOrder};
ghost use Rattle.series.specs.Theorems.{PairSteps, PairWeighs, KeptPart, KeptSpan, KeptShorter, KeptNumber, WordsDecide};
ghost use Rattle.series.specs.Theorems.{DifferenceHasLeast, LeastDifferenceShorter, AlikeOr, TriedNumber, SameWeights};
ghost use Rattle.series.specs.Theorems.{ReducedWeights, ReducedStates, ReducedCanonical, ReducedExists};

use field::Field;

/// The weights of the tables that sum, scale, multiply, after and turn define: f + g, c·f, f·g, f of the letter
/// followed by the word, and f of the word read backwards.
pub fn operations_weigh<F: Field>()
    ensures sum { Combines F.field (sum_table F.field) F.field.plus }
    ensures scale { (c : F.Value) → Maps F.field (scaled_table F.field c) (F.field.times c) }
    ensures multiply { Combines F.field (product_table F.field) F.field.times }
    ensures after { (a : ℕ) → Rereads F.field (after_table F.field a) (λ w. a ∷ w) }
    ensures turn { Rereads F.field (turned_table F.field) reverse }
{}

/// More vectors than dimensions depend on each other.
pub fn many_vectors_depend<F: Field>()
    ensures more_than_dimensions { DependWhere F.field (λ d n. d < n) }
{}

/// Whether a vector is a combination of finitely many others is decidable.
pub fn combinations_are_decidable<F: Field>()
    ensures decidable { CombinationKnown F.field (λ A. Dec A) }
{}

/// The pair row of a word and one letter more is the word's pair row times the letter's two matrices, and the outcomes of a
/// word's pair row are its weights.
pub fn pair_rows_step_and_weigh<F: Field>()
    ensures step { PairSteps F.field (pair_step F.field) }
    ensures left { PairWeighs F.field (left_outcome F.field) (λ S T. S) }
    ensures right { PairWeighs F.field (right_outcome F.field) (λ S T. T) }
{}

/// A prefix of a kept word is kept.
pub fn prefixes_are_kept<F: Field>()
    ensures kept { KeptPart F.field (λ u v. u ++ v) }
{}

/// Every pair row is a combination of pair rows of kept words not after it.
pub fn kept_words_span<F: Field>()
    ensures combination { KeptSpan F.field (λ u w. (u ≡ w) ⊎ (u ≺ w)) }
{}

/// A kept word has fewer letters than both tables have states together.
pub fn kept_words_are_short<F: Field>()
    ensures fewer_letters { KeptShorter F.field (λ S T. S.states + T.states) }
{}

/// There are at most as many kept words as both tables have states together.
pub fn kept_words_are_few<F: Field>()
    ensures number { KeptNumber F.field (λ S T. S.states + T.states) }
{}

/// Two tables weigh every word alike exactly when they weigh every kept word alike.
pub fn kept_words_decide<F: Field>()
    ensures exactly { WordsDecide F.field (λ S T w. Kept F.field S T w) }
{}

/// If some word differs, there is a least such word; it is kept, and has fewer letters than both tables have states
/// together.
pub fn least_difference_is_kept<F: Field>()
    ensures exists { DifferenceHasLeast F.field }
    ensures kept_and_short { LeastDifferenceShorter F.field (λ S T. S.states + T.states) }
{}

/// Two tables weigh every word alike, or there is a least word that differs.
pub fn tables_compare<F: Field>()
    ensures decided { AlikeOr F.field (λ S T v. LeastDifference F.field S T v) }
{}

/// There is one tried word, and k more for each kept word, where there are k letters.
pub fn tried_words_number<F: Field>()
    ensures number { TriedNumber F.field (λ k n. 1 + k * n) }
{}

/// Tables that agree number for number weigh every word over their letters alike.
pub fn same_tables_weigh_alike<F: Field>()
    ensures alike { SameWeights F.field (λ S T. SameTable S T) }
{}

/// The reduced form weighs as the function does.
pub fn reduced_form_weighs<F: Field>()
    ensures weight { ReducedWeights F.field (λ w. w) }
{}

/// No table that weighs as the function does has fewer states than the reduced form.
pub fn reduced_form_is_smallest<F: Field>()
    ensures no_fewer_states { ReducedStates F.field (λ r t. r ≤ t) }
{}

/// Two reduced forms agree number for number exactly when their functions agree on every word.
pub fn reduced_form_is_canonical<F: Field>()
    ensures exactly { ReducedCanonical F.field (λ R S. SameTable R S) }
{}

/// Every function that a table weighs has a reduced form.
pub fn reduced_form_exists<F: Field>()
    ensures exists { ReducedExists F.field (λ T. T.letters) }
{}

/// Shortlex has the laws of a word order, and no other order that a test decides has them.
pub fn shortlex_is_a_word_order()
    ensures laws { WordOrder ◌≺◌ }
    ensures no_other { OnlyOrder ◌≺◌ }
{}
