//! Tests of the tables made of tables, which lie in larger memories: the weights of five words under each, over several
//! fields, and that the elements around them stay.
#![tactic(auto)]

ghost use Rattle.std.specs.Prelude.{◌≡◌, ◌+◌, ◌≤◌, length};
ghost use Rattle.rows.specs.Layout.{table_size};
ghost use Rattle.rows.specs.Writing.{TakesPart};

#[cfg(test)]
mod tests {
    use byte::Byte;
    use field::Field;
    use loose::Loose;
    use operations::addition::sum;
    use operations::adjusting::{after, scale};
    use operations::multiplication::multiply;
    use operations::turning::turn;
    use residue::{Bit, Fermat};
    use rows::table::{Shape, TableRef};
    use rows::weight::weigh;
    use std::process::Abort;
    use std::test::Fail;

    // What is tried over one field: a table of two states and one of one state, both of two letters, by their codes, the code
    // of a factor, and the weights that are expected.
    #[derive(Clone, Copy)]
    struct Case {
        first: [u64; 12],
        second: [u64; 4],
        factor: u64,
        expected: [[u64; 5]; 5],
    }

    // Writes elements by their codes.
    fn put<F: Field>(rt: &impl Abort, memory: &mut [F], codes: &[u64]) -> Result<(), Fail> {
        assert_eq!(rt; memory.len(), codes.len());
        for (x, code) in memory.iter_mut().zip(codes) {
            let Some(element) = F::from_code(*code) else {
                return Err(Fail::new("a code is refused"));
            };
            *x = element;
        }
        Ok(())
    }

    // Fills memory with ones, to see later what was written.
    fn mark<F: Field>(memory: &mut [F]) {
        let one = F::one();
        for x in memory.iter_mut() {
            *x = one;
        }
    }

    // Checks that all of a part is marked still.
    fn check_marked<F: Field>(rt: &impl Abort, part: &[F]) -> Result<(), Fail> {
        assert!(rt; part.iter().all(|x| x.code() == 1));
        Ok(())
    }

    // Checks elements by their codes.
    fn check_codes<F: Field>(rt: &impl Abort, part: &[F], codes: &[u64]) -> Result<(), Fail> {
        assert_eq!(rt; part.len(), codes.len());
        for (x, code) in part.iter().zip(codes) {
            assert_eq!(rt; x.code(), *code);
        }
        Ok(())
    }

    // Checks the weight of a word.
    fn check_weight<F: Field>(
        rt: &impl Abort,
        table: TableRef<'_, F>,
        word: &[u8],
        scratch: &mut [F],
        expected: u64,
    ) -> Result<(), Fail>
        requires two_rows_fit { table.shape.states + table.shape.states ≤ length scratch.old }
    {
        match weigh(table, word, scratch) {
            Ok(x) => {
                assert_eq!(rt; x.code(), expected);
                Ok(())
            },
            Err(_) => Err(Fail::new("a letter is refused")),
        }
    }

    // Checks the weights of the words (), 1, 2, 12 and 211.
    fn check_weights<F: Field>(
        rt: &impl Abort,
        table: TableRef<'_, F>,
        scratch: &mut [F],
        expected: [u64; 5],
    ) -> Result<(), Fail>
        requires two_rows_fit { table.shape.states + table.shape.states ≤ length scratch.old }
    {
        check_weight(rt, table, &[], scratch, expected[0])?;
        check_weight(rt, table, &[1], scratch, expected[1])?;
        check_weight(rt, table, &[2], scratch, expected[2])?;
        check_weight(rt, table, &[1, 2], scratch, expected[3])?;
        check_weight(rt, table, &[2, 1, 1], scratch, expected[4])
    }

    // The table that an operation makes within work memory, and the elements before and behind it.
    fn check_made<F: Field, M: FnOnce(&mut [F])>(
        rt: &impl Abort,
        shape: Shape,
        make: M,
        work: &mut [F],
        scratch: &mut [F],
        expected: [u64; 5],
    ) -> Result<(), Fail>
        requires slice_taken { TakesPart M.FnOnce make (table_size shape.states shape.letters) }
        requires two_rows_fit { shape.states + shape.states ≤ length scratch.old }
    {
        let size = shape.size();
        assert!(rt; 10 + size <= work.len());
        mark(work);
        make(&mut work[10..10 + size]);
        check_marked(rt, &work[..10])?;
        check_marked(rt, &work[10 + size..])?;
        check_weights(rt, TableRef::at(work, 10, shape), scratch, expected)
    }

    // All operations on two tables, with the expected weights in the order of the calls.
    fn check_operations<F: Field>(
        rt: &impl Abort,
        left: TableRef<'_, F>,
        right: TableRef<'_, F>,
        factor: F,
        work: &mut [F],
        scratch: &mut [F],
        expected: &[[u64; 5]; 5],
    ) -> Result<(), Fail>
        requires shapes { (left.shape.states ≡ 2) × (left.shape.letters ≡ 2) × (right.shape.states ≡ 1) × (right.shape.letters ≡ 2) }
        requires two_rows_fit { 6 ≤ length scratch.old }
    {
        let three_states = Shape::new(3, 2);
        let two_states = Shape::new(2, 2);
        check_made(
            rt,
            three_states,
            |to| sum(left, right, to),
            work,
            scratch,
            expected[0],
        )?;
        check_made(
            rt,
            two_states,
            |to| scale(left, factor, to),
            work,
            scratch,
            expected[1],
        )?;
        check_made(
            rt,
            two_states,
            |to| multiply(left, right, to),
            work,
            scratch,
            expected[2],
        )?;
        check_made(
            rt,
            two_states,
            |to| after(left, 2, to),
            work,
            scratch,
            expected[3],
        )?;
        check_made(
            rt,
            two_states,
            |to| turn(left, to),
            work,
            scratch,
            expected[4],
        )
    }

    // The table turned, and copied over the one that was read.
    fn check_turned_in_place<F: Field>(
        rt: &impl Abort,
        shelf: &mut [F],
        work: &mut [F],
        scratch: &mut [F],
        expected: [u64; 5],
    ) -> Result<(), Fail>
        requires two_rows_fit { 4 ≤ length scratch.old }
    {
        assert!(rt; shelf.len() == 30 && work.len() == 64);
        let shape = Shape::new(2, 2);
        let turned = &mut work[10..22];
        turn(TableRef::at(shelf, 12, shape), turned);
        shelf[12..24].copy_from_slice(turned);
        check_weights(rt, TableRef::at(shelf, 12, shape), scratch, expected)
    }

    // Checks that around the first table the second one and the marks stay.
    fn check_around<F: Field>(rt: &impl Abort, shelf: &[F], codes: &[u64]) -> Result<(), Fail> {
        assert!(rt; shelf.len() == 30);
        check_marked(rt, &shelf[..2])?;
        check_codes(rt, &shelf[2..6], codes)?;
        check_marked(rt, &shelf[6..12])?;
        check_marked(rt, &shelf[24..])
    }

    // The second table lies at 2 and the first at 12, among marked elements.
    fn check_case<F: Field>(
        rt: &impl Abort,
        shelf: &mut [F],
        work: &mut [F],
        scratch: &mut [F],
        case: &Case,
    ) -> Result<(), Fail> {
        let expected = &case.expected;
        assert!(rt; shelf.len() == 30 && scratch.len() == 8);
        mark(shelf);
        put(rt, &mut shelf[2..6], &case.second)?;
        put(rt, &mut shelf[12..24], &case.first)?;
        let Some(factor) = F::from_code(case.factor) else {
            return Err(Fail::new("the factor is refused"));
        };
        let left = TableRef::at(shelf, 12, Shape::new(2, 2));
        let right = TableRef::at(shelf, 2, Shape::new(1, 2));
        check_operations(rt, left, right, factor, work, scratch, expected)?;
        check_turned_in_place(rt, shelf, work, scratch, expected[4])?;
        check_around(rt, shelf, &case.second)
    }

    #[test]
    fn over_two_elements(rt: HostRuntime) -> Result<(), Fail> {
        let case = Case {
            first: [1, 0, 0, 1, 1, 1, 1, 1, 0, 1, 1, 1],
            second: [1, 1, 0, 1],
            factor: 1,
            expected: [
                [0, 0, 0, 1, 1],
                [1, 1, 0, 1, 1],
                [1, 1, 0, 0, 0],
                [0, 1, 1, 0, 0],
                [1, 1, 0, 1, 1],
            ],
        };
        let zero = Bit::zero();
        check_case(&rt, &mut [zero; 30], &mut [zero; 64], &mut [zero; 8], &case)
    }

    #[test]
    fn over_bytes(rt: HostRuntime) -> Result<(), Fail> {
        let case = Case {
            first: [1, 2, 3, 4, 5, 6, 7, 255, 9, 10, 11, 12],
            second: [83, 202, 3, 87],
            factor: 131,
            expected: [
                [241, 100, 50, 29, 78],
                [118, 189, 208, 125, 144],
                [159, 240, 64, 183, 53],
                [15, 193, 154, 181, 206],
                [19, 51, 15, 193, 243],
            ],
        };
        let zero = Byte::zero();
        check_case(&rt, &mut [zero; 30], &mut [zero; 64], &mut [zero; 8], &case)
    }

    // Residues, and the field in which several elements stand for one value, give the same codes.
    #[test]
    fn over_residues(rt: HostRuntime) -> Result<(), Fail> {
        let case = Case {
            first: [1, 2, 3, 4, 5, 6, 7, 65536, 9, 10, 11, 12],
            second: [40000, 50000, 3, 60000],
            factor: 65536,
            expected: [
                [35095, 16659, 40146, 53321, 47554],
                [65502, 65202, 65034, 61188, 24589],
                [47434, 28969, 17181, 49515, 31289],
                [503, 4438, 5786, 57916, 59179],
                [35, 335, 503, 4438, 40147],
            ],
        };
        let zero = Fermat::zero();
        check_case(&rt, &mut [zero; 30], &mut [zero; 64], &mut [zero; 8], &case)?;
        let zero = Loose::<65537>::zero();
        check_case(&rt, &mut [zero; 30], &mut [zero; 64], &mut [zero; 8], &case)
    }
}
