//! Tests of reducing on worked examples, number for number, over several fields.
#![tactic(auto)]

ghost use Rattle.std.specs.Prelude.{◌≤◌, length};

#[cfg(test)]
mod tests {
    use byte::Byte;
    use field::Field;
    use loose::Loose;
    use reduction::reduce;
    use residue::{Bit, Fermat};
    use rows::table::{LARGEST, Shape, TableRef};
    use std::process::Abort;
    use std::test::Fail;

    // How many elements of work memory a reduction asks for.
    const WORK: usize = 8192;

    // Lays elements with these codes on the shelf, from element 0 on. Each is made in a roundabout way, so that a field with
    // several elements of one value shows others than the usual ones.
    fn lay<F: Field>(shelf: &mut [F], codes: &[u64]) -> Result<(), Fail> {
        let one = F::one();
        for (x, code) in shelf.iter_mut().zip(codes) {
            let y = F::from_code(*code).ok_or("a code of the table is refused")?;
            *x = y.add(one.neg()).add(one);
        }
        Ok(())
    }

    // Lays elements all over the shelf, whose codes a linear generator gives.
    fn lay_generated<F: Field>(shelf: &mut [F]) -> Result<(), Fail> {
        let mut code = 1;
        for x in shelf.iter_mut() {
            code = (code % 65537 * 75 + 74) % 65537;
            *x = F::from_code(code % F::order()).ok_or("a generated code is refused")?;
        }
        Ok(())
    }

    // A sum over the codes of the first 1568 elements that depends on their order.
    fn code_sum<F: Field>(work: &[F]) -> u64 {
        let mut sum = 0;
        for x in work.iter().take(LARGEST) {
            sum = (sum % 4294967291 * 65599 + x.code() % 65537 + 1) % 4294967291;
        }
        sum
    }

    // Checks how many states the reduced form of the table on the shelf has, and its codes.
    fn check_laid<F: Field>(
        rt: &impl Abort,
        work: &mut [F],
        shelf: &[F],
        shape: Shape,
        reduced: usize,
        codes: &[u64],
    )
        requires laid { 1568 ≤ length shelf.now }
        requires room { 8192 ≤ length work.old }
    {
        let table = TableRef::new(&shelf[..shape.size()], shape);
        let states = reduce(work, table);
        assert_eq!(rt; states, reduced);
        for (x, code) in work.iter().zip(codes) {
            assert_eq!(rt; x.code(), *code);
        }
    }

    // Lays a table, given by codes, on the shelf, and checks how many states its reduced form has, and its codes.
    fn check_reduced<F: Field>(
        rt: &impl Abort,
        work: &mut [F],
        shelf: &mut [F],
        shape: Shape,
        table: &[u64],
        reduced: usize,
        codes: &[u64],
    ) -> Result<(), Fail>
        requires room { (8192 ≤ length work.old) × (1568 ≤ length shelf.old) }
    {
        lay(shelf, table)?;
        check_laid(rt, work, shelf, shape, reduced, codes);
        Ok(())
    }

    // The same over GF(65537), in memory of its own.
    fn check_fermat(
        rt: &impl Abort,
        shape: Shape,
        table: &[u64],
        reduced: usize,
        codes: &[u64],
    ) -> Result<(), Fail> {
        let mut work = [Fermat::zero(); WORK];
        let mut shelf = [Fermat::zero(); LARGEST];
        check_reduced(rt, &mut work, &mut shelf, shape, table, reduced, codes)
    }

    #[test]
    fn fibonacci_is_reduced_already(rt: HostRuntime) -> Result<(), Fail> {
        let table = [1, 0, 0, 1, 1, 1, 0, 1];
        check_fermat(&rt, Shape::new(2, 1), &table, 2, &table)
    }

    #[test]
    fn zero_end_column_leaves_no_states(rt: HostRuntime) -> Result<(), Fail> {
        check_fermat(&rt, Shape::new(2, 1), &[1, 0, 0, 1, 1, 1, 0, 0], 0, &[])
    }

    #[test]
    fn no_states_stay_none(rt: HostRuntime) -> Result<(), Fail> {
        check_fermat(&rt, Shape::new(0, 6), &[], 0, &[])
    }

    #[test]
    fn squares_of_fibonacci(rt: HostRuntime) -> Result<(), Fail> {
        check_fermat(
            &rt,
            Shape::new(4, 1),
            &[
                1, 0, 0, 0, 0, 0, 0, 1, 0, 0, 1, 1, 0, 1, 0, 1, 1, 1, 1, 1, 0, 0, 0, 1,
            ],
            3,
            &[1, 0, 0, 0, 1, 0, 0, 0, 1, 65536, 2, 2, 0, 1, 1],
        )
    }

    // State 5 is never reached, and state 4 never counts.
    #[test]
    fn bits(rt: HostRuntime) -> Result<(), Fail> {
        check_reduced(
            &rt,
            &mut [Bit::zero(); WORK],
            &mut [Bit::zero(); LARGEST],
            Shape::new(5, 2),
            &[
                0, 1, 0, 0, 0, 1, 1, 1, 0, 0, 0, 1, 1, 1, 0, 0, 1, 1, 1, 0, 0, 0, 0, 1, 0, 1, 0, 0,
                0, 0, 0, 0, 0, 0, 0, 1, 0, 1, 1, 0, 0, 0, 1, 1, 0, 0, 0, 0, 1, 0, 0, 0, 1, 1, 1, 1,
                1, 0, 0, 1,
            ],
            3,
            &[
                1, 0, 0, 0, 1, 0, 0, 0, 0, 1, 1, 1, 0, 0, 1, 1, 1, 1, 1, 1, 0, 1, 1, 1,
            ],
        )
    }

    // State 4 is never reached, and state 3 never counts.
    #[test]
    fn bytes(rt: HostRuntime) -> Result<(), Fail> {
        check_reduced(
            &rt,
            &mut [Byte::zero(); WORK],
            &mut [Byte::zero(); LARGEST],
            Shape::new(4, 2),
            &[
                205, 31, 97, 0, 34, 106, 225, 0, 83, 56, 174, 0, 0, 0, 26, 0, 52, 0, 77, 51, 186,
                13, 36, 0, 106, 192, 76, 0, 0, 0, 129, 0, 177, 186, 242, 62, 59, 249, 0, 238,
            ],
            2,
            &[1, 0, 0, 1, 176, 26, 150, 185, 123, 236, 139, 205],
        )
    }

    #[test]
    fn several_elements_of_one_value(rt: HostRuntime) -> Result<(), Fail> {
        check_reduced(
            &rt,
            &mut [Loose::<65537>::zero(); WORK],
            &mut [Loose::<65537>::zero(); LARGEST],
            Shape::new(4, 3),
            &[
                65536, 1, 0, 0, 1, 1, 0, 0, 0, 2, 0, 0, 0, 2, 0, 0, 2, 1, 65536, 1, 0, 2, 0, 0, 1,
                2, 0, 0, 65536, 0, 1, 0, 0, 0, 2, 2, 2, 65536, 0, 0, 2, 2, 0, 0, 1, 2, 2, 0, 65536,
                65536, 2, 2, 65536, 1, 1, 1,
            ],
            2,
            &[1, 0, 1, 0, 1, 2, 0, 1, 2, 2, 3, 3, 65536, 1, 2, 65536],
        )
    }

    // 16 states and 6 letters, with numbers of a linear generator, which are of low rank over its own field.
    #[test]
    fn sixteen_states_to_two(rt: HostRuntime) -> Result<(), Fail> {
        let mut work = [Fermat::zero(); WORK];
        let mut shelf = [Fermat::zero(); LARGEST];
        lay_generated(&mut shelf)?;
        check_laid(
            &rt,
            &mut work,
            &shelf,
            Shape::new(16, 6),
            2,
            &[
                1, 0, 0, 1, 56566, 46454, 13267, 37220, 6502, 43926, 40362, 16554, 23589, 17665,
                28906, 60756, 9171, 18445, 6132, 19224, 50874, 63153, 22940, 2060, 45575, 31803,
                3215, 63606,
            ],
        );
        Ok(())
    }

    // The same numbers over bytes, where no state can go: the codes are checked by a sum over all.
    #[test]
    fn sixteen_states_stay(rt: HostRuntime) -> Result<(), Fail> {
        let mut work = [Byte::zero(); WORK];
        let mut shelf = [Byte::zero(); LARGEST];
        lay_generated(&mut shelf)?;
        check_laid(&rt, &mut work, &shelf, Shape::new(16, 6), 16, &[1, 0, 0, 0]);
        assert_eq!(rt; code_sum(&work), 43353484);
        Ok(())
    }
}
