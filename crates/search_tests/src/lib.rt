//! Tests of the comparison on worked examples: words as long as they can be, equal tables, tables of zeros or without states.
#![tactic(auto)]

ghost use Rattle.std.specs.Prelude.{◌≡◌, ◌+◌, ◌≤◌, length};
ghost use Rattle.rows.specs.Layout.{table_size};

#[cfg(test)]
mod tests {
    use byte::Byte;
    use field::Field;
    use loose::Loose;
    use residue::{Bit, Fermat};
    use rows::table::{Shape, TableRef};
    use search::compare::{Comparison, compare};
    use search::word::ReportedWord;
    use std::process::Abort;
    use std::test::Fail;
    use walk::pairs::Pair;

    // How many elements of work memory a comparison asks for.
    const WORK: usize = 8192;

    // The word of these letters, as it is reported: the places behind them are 0.
    fn reported(word: &[u8]) -> ReportedWord {
        let mut letters = [0; 31];
        for (place, letter) in letters.iter_mut().zip(word) {
            *place = *letter;
        }
        ReportedWord {
            length: word.len(),
            letters,
        }
    }

    // Sets elements of a shelf by place and code.
    fn put<F: Field>(shelf: &mut [F], entries: &[(usize, u64)]) -> Result<(), Fail> {
        for (place, code) in entries {
            let x = F::from_code(*code).ok_or("a code below the order is refused")?;
            if *place >= shelf.len() {
                return Err(Fail::new("a place past the end of the shelf"));
            }
            shelf[*place] = x;
        }
        Ok(())
    }

    // The table of so many states and letters that begins at a place of the shelf.
    fn table<F: Field>(shelf: &[F], base: usize, states: usize, letters: usize) -> TableRef<'_, F>
        requires shape_within { (states ≤ 16) × ((1 ≤ letters) × (letters ≤ 6)) }
        requires table_within { base + table_size states letters ≤ length shelf.now }
        ensures of_letters { result.shape.letters ≡ letters }
    {
        TableRef::at(shelf, base, Shape::new(states, letters))
    }

    // How many words are tried and kept, if all weigh alike.
    fn check_alike<F: Field>(
        rt: &impl Abort,
        work: &mut [F],
        left: TableRef<'_, F>,
        right: TableRef<'_, F>,
        counts: (usize, usize),
    ) -> Result<(), Fail>
        requires same_letters { right.shape.letters ≡ left.shape.letters }
        requires room { 8192 ≤ length work.old }
    {
        let (tried, kept) = counts;
        assert_eq!(rt;
            compare(work, Pair { left, right }),
            Comparison::Alike { tried, kept }
        );
        Ok(())
    }

    // The first word that differs, how many words are tried up to it, and the codes of its weights.
    fn check_differ<F: Field>(
        rt: &impl Abort,
        work: &mut [F],
        left: TableRef<'_, F>,
        right: TableRef<'_, F>,
        word: &[u8],
        tried: usize,
        codes: (u64, u64),
    ) -> Result<(), Fail>
        requires same_letters { right.shape.letters ≡ left.shape.letters }
        requires room { 8192 ≤ length work.old }
    {
        let expected = Comparison::Differs {
            word: reported(word),
            tried,
            left: codes.0,
            right: codes.1,
        };
        assert_eq!(rt; compare(work, Pair { left, right }), expected);
        Ok(())
    }

    // Two tables of 16 states each that differ first at 31 letters.
    fn check_longest<F: Field>(rt: &impl Abort, work: &mut [F], shelf: &mut [F]) -> Result<(), Fail>
        requires room { (8192 ≤ length work.old) × (1088 ≤ length shelf.old) }
    {
        put(
            shelf,
            &[
                (0, 1),
                (17, 1),
                (51, 1),
                (85, 1),
                (119, 1),
                (153, 1),
                (187, 1),
                (221, 1),
                (255, 1),
                (290, 1),
                (324, 1),
                (358, 1),
                (392, 1),
                (426, 1),
                (460, 1),
                (494, 1),
                (512, 32893),
                (514, 4507),
                (529, 46185),
                (531, 31175),
                (533, 16193),
                (535, 31566),
                (537, 31828),
                (539, 32383),
                (541, 27648),
                (543, 333),
            ],
        )?;
        put(
            shelf,
            &[
                (544, 1),
                (561, 1),
                (595, 1),
                (629, 1),
                (663, 1),
                (697, 1),
                (731, 1),
                (765, 1),
                (799, 1),
                (834, 1),
                (868, 1),
                (902, 1),
                (936, 1),
                (970, 1),
                (1004, 1),
                (1038, 1),
                (1056, 12039),
                (1058, 37130),
                (1062, 52172),
                (1066, 4056),
                (1073, 46185),
                (1075, 31175),
                (1077, 16193),
                (1079, 31566),
                (1081, 31828),
                (1083, 32383),
                (1085, 27648),
                (1087, 333),
            ],
        )?;
        let left = table(shelf, 0, 16, 2);
        let right = table(shelf, 544, 16, 2);
        check_differ(
            rt,
            work,
            left,
            right,
            &[
                1, 2, 1, 2, 1, 2, 1, 2, 1, 2, 1, 2, 1, 2, 1, 2, 1, 2, 1, 2, 1, 2, 1, 2, 1, 2, 1, 2,
                1, 2, 1,
            ],
            62,
            (55513, 55512),
        )?;
        check_alike(rt, work, left, left, (33, 16))
    }

    #[test]
    fn longest_word_over_fermat(rt: HostRuntime) -> Result<(), Fail> {
        let mut work = [Fermat::zero(); WORK];
        let mut shelf = [Fermat::zero(); 1088];
        check_longest(&rt, &mut work, &mut shelf)
    }

    #[test]
    fn longest_word_over_loose(rt: HostRuntime) -> Result<(), Fail> {
        let mut work = [Loose::<65537>::zero(); WORK];
        let mut shelf = [Loose::<65537>::zero(); 1088];
        check_longest(&rt, &mut work, &mut shelf)
    }

    #[test]
    fn bits(rt: HostRuntime) -> Result<(), Fail> {
        let mut work = [Bit::zero(); WORK];
        let mut shelf = [Bit::zero(); 64];
        put(
            &mut shelf,
            &[
                (0, 1),
                (4, 1),
                (8, 1),
                (9, 1),
                (10, 1),
                (12, 1),
                (14, 1),
                (15, 1),
                (18, 1),
                (19, 1),
                (20, 1),
                (21, 1),
            ],
        )?;
        let left = table(&shelf, 0, 3, 1);
        let right = table(&shelf, 15, 2, 1);
        check_differ(&rt, &mut work, left, right, &[1, 1, 1, 1], 5, (1, 0))?;
        // one state that stays, and two that take turns and weigh the same
        let mut shelf = [Bit::zero(); 64];
        put(
            &mut shelf,
            &[
                (0, 1),
                (1, 1),
                (2, 1),
                (3, 1),
                (4, 1),
                (7, 1),
                (8, 1),
                (10, 1),
                (13, 1),
                (14, 1),
                (15, 1),
            ],
        )?;
        let one = table(&shelf, 0, 1, 2);
        let two = table(&shelf, 4, 2, 2);
        check_alike(&rt, &mut work, one, two, (5, 2))
    }

    #[test]
    fn bytes(rt: HostRuntime) -> Result<(), Fail> {
        let mut work = [Byte::zero(); WORK];
        let mut shelf = [Byte::zero(); 64];
        put(
            &mut shelf,
            &[
                (0, 1),
                (5, 1),
                (15, 1),
                (26, 1),
                (32, 95),
                (34, 66),
                (37, 55),
                (39, 241),
                (40, 1),
                (43, 1),
                (48, 235),
                (51, 55),
            ],
        )?;
        let left = table(&shelf, 0, 4, 2);
        let right = table(&shelf, 40, 2, 2);
        check_differ(
            &rt,
            &mut work,
            left,
            right,
            &[1, 2, 1, 2, 1],
            10,
            (255, 254),
        )?;
        // a table, and the same in another basis with a state that is never reached
        let mut shelf = [Byte::zero(); 64];
        put(
            &mut shelf,
            &[
                (0, 1),
                (3, 1),
                (4, 83),
                (5, 2),
                (6, 3),
                (9, 7),
                (10, 1),
                (11, 255),
                (12, 1),
                (13, 5),
                (15, 4),
                (16, 31),
                (18, 83),
                (19, 6),
                (21, 9),
                (22, 8),
                (23, 7),
                (24, 3),
                (25, 20),
                (28, 7),
                (30, 9),
                (31, 8),
                (32, 7),
                (33, 47),
                (34, 255),
                (35, 128),
            ],
        )?;
        let plain = table(&shelf, 0, 2, 2);
        let other = table(&shelf, 12, 3, 2);
        check_alike(&rt, &mut work, plain, other, (5, 2))
    }

    // Elements that are not zero lie before, between and behind the tables.
    #[test]
    fn tables_amid_other_elements(rt: HostRuntime) -> Result<(), Fail> {
        let mut work = [Fermat::zero(); WORK];
        let nine = Fermat::from_code(9).ok_or("a code below the order is refused")?;
        let mut shelf = [nine; 64];
        put(
            &mut shelf,
            &[
                (10, 1),
                (11, 1),
                (12, 1),
                (13, 1),
                (14, 2),
                (15, 1),
                (40, 1),
                (41, 1),
                (42, 0),
            ],
        )?;
        let ones = table(&shelf, 10, 1, 1);
        let powers = table(&shelf, 13, 1, 1);
        let zeros = table(&shelf, 40, 1, 1);
        check_alike(&rt, &mut work, ones, ones, (2, 1))?;
        check_differ(&rt, &mut work, ones, powers, &[1], 2, (1, 2))?;
        check_differ(&rt, &mut work, zeros, ones, &[], 1, (0, 1))
    }

    #[test]
    fn zeros_and_no_states(rt: HostRuntime) -> Result<(), Fail> {
        let mut work = [Fermat::zero(); WORK];
        let mut shelf = [Fermat::zero(); 64];
        let none = table(&shelf, 0, 0, 2);
        let two = table(&shelf, 0, 2, 2);
        let three = table(&shelf, 12, 3, 2);
        check_alike(&rt, &mut work, two, three, (1, 0))?;
        check_alike(&rt, &mut work, none, none, (1, 0))?;
        check_alike(&rt, &mut work, none, three, (1, 0))?;
        put(&mut shelf, &[(0, 5), (2, 7)])?;
        let none = table(&shelf, 0, 0, 1);
        let one = table(&shelf, 0, 1, 1);
        check_differ(&rt, &mut work, none, one, &[], 1, (0, 35))?;
        check_differ(&rt, &mut work, one, none, &[], 1, (35, 0))
    }
}
