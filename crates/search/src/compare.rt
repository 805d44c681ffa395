//! Comparing two tables: whether all words weigh alike, and if not, the first word that does not.
ghost use Rattle.std.specs.Prelude.{◌≤◌, length};
ghost use Rattle.search.specs.Answers.{Compares, WeighAlike, SaysAlike, Bounded};

use crate::word::{ReportedWord, empty_word, spell};
use field::Field;
use walk::links::Walk;
use walk::pairs::Pair;
use walk::walk::{Difference, try_words};

// Where in work memory the rows in echelon form begin; the pair rows of the kept words lie before them.
const ECHELON: usize = 2048;

/// The result of comparing two tables.
#[derive(Clone, Copy, Debug, PartialEq, Eq)]
pub enum Comparison {
    /// All words weigh alike: how many words were tried, and how many kept.
    Alike {
        tried: usize,
        kept: usize,
    },
    /// The first word that does not, how many words were tried up to it, itself counted, and the codes of its weights.
    Differs {
        word: ReportedWord,
        tried: usize,
        left: u64,
        right: u64,
    },
}

/// Compares two tables that have one letter count. Work memory is overwritten.
pub fn compare<F: Field>(work: &mut [F], pair: Pair<'_, F>) -> Comparison
    requires room { 8192 ≤ length work.old }
    ensures answer { Compares F.field F.value pair.entry result }
    ensures bounded { Bounded result }
    ensures alike_only_if_all_weigh_alike { SaysAlike result → WeighAlike F.field F.value pair.entry }
    ensures alike_if_all_weigh_alike { WeighAlike F.field F.value pair.entry → SaysAlike result }
{
    let (rows, echelon) = work.split_at_mut(ECHELON);
    let letters = pair.left.letters();
    let mut walk = Walk::new();
    match try_words(rows, echelon, &mut walk, pair) {
        Ok(()) => Comparison::Alike {
            tried: 1 + letters * walk.count(),
            kept: walk.count(),
        },
        Err(Difference::Empty(weights)) => Comparison::Differs {
            word: empty_word(),
            tried: 1,
            left: weights.left,
            right: weights.right,
        },
        Err(Difference::Longer(f)) => Comparison::Differs {
            word: spell(&walk, f.last),
            tried: 1 + f.last.parent * letters + usize::from(f.last.letter),
            left: f.weights.left,
            right: f.weights.right,
        },
    }
}
