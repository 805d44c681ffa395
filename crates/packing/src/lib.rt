//! Packing: from the text of a table to the text of the smallest table that weighs every word alike.
#![tactic(auto)]

ghost use Rattle.std.specs.Prelude.{◌≡◌, ◌≤◌, length, IfOk, IfErr, OnErr};
ghost use Rattle.series.specs.Comparing.{Alike};
ghost use Rattle.book.specs.Shelves.{at_place, empty, states_of};
ghost use Rattle.packing.specs.Packing.{Packs, Fails};
ghost use Rattle.packing.specs.Theorems.{PackedStates, SamePackedText};

use crate::error::PackError;
use crate::packed::Packed;
use crate::theorems::{packed_table_is_smallest, packed_text_is_canonical};
use book::verdict::Verdict;
use field::Field;
use rows::table::Shape;
use shelf::directory::Directory;

pub mod error;
pub mod packed;
pub mod theorems;

// How many states the table of a place has, 0 where there is none.
fn states(directory: &Directory, place: usize) -> usize
    ensures states_of_place { result ≡ states_of (at_place empty directory.now place) }
{
    directory.shape(place).map_or(0, Shape::states)
}

/// Reads the text of a table, reduces the table, compares the two, and writes the text of the reduced form to the front of
/// the output. The two tables are left at places 1 and 2 of shelf memory.
pub fn pack<F: Field>(
    shelf: &mut [F],
    work: &mut [F],
    output: &mut [u8],
    text: &[u8],
) -> Result<Packed, PackError>
    ensures packs { IfOk result (Packs F.field F.value text.now (length work.old) shelf.old shelf.new output.old output.new) }
    ensures fails { IfErr result (Fails F.field F.value text.now (length work.old) (length output.old) shelf.old shelf.new) }
    ensures output_unchanged { OnErr result (output.new ≡ output.old) }
    ensures no_fewer_states { PackedStates F.field (λ packed other. packed ≤ other) }
    ensures same_packed_text { SamePackedText F.field (λ S T. (S.letters ≡ T.letters) × Alike F.field S T) }
{
    // These calls do nothing; their contracts are the last two clauses.
    packed_table_is_smallest::<F>();
    packed_text_is_canonical::<F>();
    let mut directory = Directory::open();
    let mut verdict = Verdict::blank();
    directory.load(shelf, work, text, 1)?;
    directory.reduce(shelf, work, 1, 2)?;
    directory.compare(shelf, work, 1, 2, &mut verdict)?;
    // The memories are long enough and place 2 is filled, so only the output can be refused.
    let Ok(bytes) = directory.write(shelf, 2, output) else {
        return Err(PackError::OutputShort);
    };
    Ok(Packed {
        before: states(&directory, 1),
        after: states(&directory, 2),
        bytes,
        verdict,
    })
}
