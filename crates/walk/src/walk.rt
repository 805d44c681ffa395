//! The walk through the tried words of two tables, in shortlex order.
ghost use Rattle.std.specs.Prelude.{◌≡◌, ◌+◌, ◌≤◌, length, OnOk, IfErr};
ghost use Rattle.walk.specs.Walking.{kept, AtLetter, AtWord, EmptyDiffers, LinkDiffers, KeptWords, DiffersFirst};
ghost use Rattle.walk.specs.declared.walk.Difference.TheVariants.{Empty as EmptyWord, Longer as LongerWord};

use crate::links::{Link, Walk};
use crate::pairs::{Pair, Weights};
use elimination::echelon::keep_row;
use field::Field;

/// The word that weighs differently, as one letter behind a kept word, and its weights.
#[derive(Clone, Copy, Debug, PartialEq, Eq)]
pub struct Found {
    pub last: Link,
    pub weights: Weights,
}

/// The word that weighs differently: the empty word, with its weights, or a longer one.
#[derive(Clone, Copy, Debug, PartialEq, Eq)]
pub enum Difference {
    Empty(Weights),
    Longer(Found),
}

impl From<Weights> for Difference {
    ghost from_gives = { λ weights d. d ≡ EmptyWord weights };

    fn from(weights: Weights) -> Difference {
        Difference::Empty(weights)
    }
}

impl From<Found> for Difference {
    ghost from_gives = { λ found d. d ≡ LongerWord found };

    fn from(found: Found) -> Difference {
        Difference::Longer(found)
    }
}

// Tries a kept word with one letter more: keeps it if its pair row is no combination of those of the kept words, or stops at it
// if it weighs differently.
fn try_letter<F: Field>(
    rows: &mut [F],
    echelon: &mut [F],
    walk: &mut Walk,
    pair: Pair<'_, F>,
    link: Link,
) -> Result<(), Found>
    requires room { (1056 ≤ length rows.old) × (1056 ≤ length echelon.old) }
    requires letter_of_tables { (1 ≤ link.letter) × (link.letter ≤ pair.left.shape.letters) }
    requires ready { AtLetter F.field F.value pair link.parent link.letter
        walk.old rows.old echelon.old }
    ensures ok { OnOk result (AtLetter F.field F.value pair.entry link.parent (link.letter + 1)
        walk.new rows.new echelon.new) }
    ensures err { IfErr result (LinkDiffers F.field F.value pair.entry walk.new) }
{
    let d = pair.width();
    let (before, rest) = rows.split_at_mut(walk.count() * d);
    let row = &mut rest[..d];
    let from = link.parent * d;
    pair.step_row(&before[from..from + d], usize::from(link.letter), row);
    if let Some(weights) = pair.difference(row) {
        return Err(Found {
            last: link,
            weights,
        });
    }
    if let Some(pivot) = keep_row(row, echelon, &walk.pivots) {
        walk.note(pivot, link);
    }
    Ok(())
}

// Tries the kept word i with each letter.
fn try_letters<F: Field>(
    rows: &mut [F],
    echelon: &mut [F],
    walk: &mut Walk,
    pair: Pair<'_, F>,
    i: usize,
) -> Result<(), Found>
    requires room { (1056 ≤ length rows.old) × (1056 ≤ length echelon.old) }
    requires ready { AtLetter F.field F.value pair i 1 walk.old rows.old echelon.old }
    ensures ok { OnOk result (AtLetter F.field F.value pair.entry i (pair.entry.left.shape.letters + 1)
        walk.new rows.new echelon.new) }
    ensures err { IfErr result (LinkDiffers F.field F.value pair.entry walk.new) }
{
    for letter in 1..=pair.left.letters() {
        // there are at most six letters, so the cast keeps the number
        let link = Link {
            parent: i,
            letter: letter as u8,
        };
        try_letter(rows, echelon, walk, pair, link)?;
    }
    Ok(())
}

// Tries the empty word. The pair rows of the kept words are written to `rows`, and to `echelon` rows in echelon form that
// span the same.
fn try_empty<F: Field>(
    rows: &mut [F],
    echelon: &mut [F],
    walk: &mut Walk,
    pair: Pair<'_, F>,
) -> Result<(), Weights>
    requires room { (1056 ≤ length rows.old) × (1056 ≤ length echelon.old) }
    requires no_word { kept walk.old ≡ 0 }
    ensures ok { OnOk result (AtWord F.field F.value pair.entry 0 walk.new rows.new echelon.new) }
    ensures err { IfErr result (EmptyDiffers F.field F.value pair.entry) }
{
    let row = &mut rows[..pair.width()];
    pair.start_row(row);
    if let Some(weights) = pair.difference(row) {
        return Err(weights);
    }
    if let Some(pivot) = keep_row(row, echelon, &walk.pivots) {
        walk.note(pivot, Link::default());
    }
    Ok(())
}

// Tries each kept word with each letter, those too that are kept on the way.
fn try_rest<F: Field>(
    rows: &mut [F],
    echelon: &mut [F],
    walk: &mut Walk,
    pair: Pair<'_, F>,
) -> Result<(), Found>
    requires room { (1056 ≤ length rows.old) × (1056 ≤ length echelon.old) }
    requires begun { AtWord F.field F.value pair 0 walk.old rows.old echelon.old }
    ensures ok { OnOk result (AtWord F.field F.value pair.entry (kept walk.new)
        walk.new rows.new echelon.new) }
    ensures err { IfErr result (LinkDiffers F.field F.value pair.entry walk.new) }
{
    // the loop itself adds kept words, so their count is not known before it
    let mut i = 0;
    while i < walk.count() {
        try_letters(rows, echelon, walk, pair, i)?;
        i += 1;
    }
    Ok(())
}

/// Tries the empty word, and then each kept word with each letter, up to the first word that weighs differently. The pair
/// rows of the kept words are written to `rows`, and to `echelon` rows in echelon form that span the same.
pub fn try_words<F: Field>(
    rows: &mut [F],
    echelon: &mut [F],
    walk: &mut Walk,
    pair: Pair<'_, F>,
) -> Result<(), Difference>
    requires room { (1056 ≤ length rows.old) × (1056 ≤ length echelon.old) }
    requires no_word { kept walk.old ≡ 0 }
    ensures ok { OnOk result (KeptWords F.field F.value pair.entry
        walk.new rows.new echelon.new) }
    ensures err { IfErr result (DiffersFirst F.field F.value pair.entry walk.new) }
{
    try_empty(rows, echelon, walk, pair)?;
    try_rest(rows, echelon, walk, pair)?;
    Ok(())
}
