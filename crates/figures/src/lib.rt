//! Worked figures: small results of the library's definitions, each established from them.
#![tactic(auto)]

ghost use Rattle.std.specs.Prelude.{[], ◌∷◌};
ghost use Rattle.figures.specs.Figures.{WorkedFigures};

/// The worked figures hold: among them that 83 and 202 are inverse bytes, that 32769 is half of one modulo 65537, what
/// the Fibonacci table weighs, the last row of its square's reduced form, and how many words are tried and kept where it
/// is compared with itself.
pub fn worked_figures()
    ensures figures { WorkedFigures 202 32769 (0 ∷ 1 ∷ 1 ∷ 2 ∷ 3 ∷ []) (65536 ∷ 2 ∷ 2 ∷ []) 3 2 }
{}
