//! Tests of the fields: worked products, inverses, codes at the edge, and every product of two bytes,
//! computed by polynomial division.
#![tactic(auto)]

#[cfg(test)]
mod tests {
    use byte::Byte;
    use field::Field;
    use loose::Loose;
    use residue::{Bit, Fermat};
    use std::process::Abort;
    use std::test::Fail;

    // The code of the sum and of the product of two elements given by their codes.
    fn combined<F: Field>(a: u64, b: u64) -> Option<(u64, u64)> {
        let x = F::from_code(a)?;
        let y = F::from_code(b)?;
        Some((x.add(y).code(), x.mul(y).code()))
    }

    // The code of the inverse of an element given by its code.
    fn inverted<F: Field>(a: u64) -> Option<u64> {
        Some(F::from_code(a)?.inverse()?.code())
    }

    // Checks rows of two codes with the codes of their sum and product.
    fn check_rows<F: Field>(rt: &impl Abort, rows: &[[u64; 4]]) {
        for &[a, b, sum, product] in rows {
            assert_eq!(rt; combined::<F>(a, b), Some((sum, product)));
        }
    }

    // Checks that each code below the order is read back, that each but 0 has an inverse, and that the
    // order is refused.
    fn check_codes<F: Field>(rt: &impl Abort, order: u64, codes: &[u64]) -> Result<(), Fail> {
        assert_eq!(rt; F::order(), order);
        assert_eq!(rt; F::zero().code(), 0);
        assert_eq!(rt; F::one().code(), 1);
        for &code in codes {
            let x = F::from_code(code).ok_or("a code below the order is refused")?;
            assert_eq!(rt; x.code(), code);
            assert!(rt; x.add(x.neg()).same(F::zero()));
            match x.inverse() {
                None => assert_eq!(rt; code, 0),
                Some(y) => assert!(rt; x.mul(y).same(F::one())),
            }
        }
        assert!(rt; F::from_code(order).is_none());
        assert!(rt; F::from_code(u64::MAX).is_none());
        Ok(())
    }

    #[test]
    fn bytes(rt: HostRuntime) -> Result<(), Fail> {
        check_rows::<Byte>(
            &rt,
            &[
                [0x57, 0x83, 0xd4, 0xc1],
                [0x57, 0x13, 0x44, 0xfe],
                [0x57, 0x02, 0x55, 0xae],
                [0x57, 0x04, 0x53, 0x47],
                [0x57, 0x08, 0x5f, 0x8e],
                [0x57, 0x10, 0x47, 0x07],
                [0x53, 0xca, 0x99, 0x01],
                [0xff, 0xff, 0x00, 0x13],
            ],
        );
        assert_eq!(rt; inverted::<Byte>(0x53), Some(0xca));
        check_codes::<Byte>(&rt, 256, &[0, 1, 2, 0x53, 0x80, 254, 255])
    }

    // The product of two polynomials over GF(2) of degree below 8: a sum of shifts of the first.
    fn shifts_summed(a: u64, b: u64) -> u64 {
        let mut sum = 0;
        for i in 0..8u8 {
            if b >> i & 1 == 1 {
                sum ^= a << i;
            }
        }
        sum
    }

    // The remainder of a polynomial of degree at most 14 by t^8 + t^4 + t^3 + t + 1.
    fn divided(whole: u64) -> u64 {
        let mut left = whole;
        for i in 0..7u8 {
            if left >> (14 - i) & 1 == 1 {
                left ^= 0x11b << (6 - i);
            }
        }
        left
    }

    // Checks the product of a byte with each byte, and its inverse.
    fn check_products(rt: &impl Abort, a: u8) {
        let x = Byte::from(a);
        for b in 0..=255u8 {
            let product = divided(shifts_summed(u64::from(a), u64::from(b)));
            assert_eq!(rt; x.mul(Byte::from(b)).code(), product);
        }
        match x.inverse() {
            None => assert_eq!(rt; a, 0),
            Some(y) => assert_eq!(rt; divided(shifts_summed(u64::from(a), y.code())), 1),
        }
    }

    #[test]
    fn all_products_of_bytes(rt: HostRuntime) -> Result<(), Fail> {
        for a in 0..=255u8 {
            check_products(&rt, a);
        }
        Ok(())
    }

    #[test]
    fn residues(rt: HostRuntime) -> Result<(), Fail> {
        check_rows::<Bit>(
            &rt,
            &[[0, 0, 0, 0], [0, 1, 1, 0], [1, 0, 1, 0], [1, 1, 0, 1]],
        );
        check_codes::<Bit>(&rt, 2, &[0, 1])?;
        check_rows::<Fermat>(
            &rt,
            &[
                [65536, 65536, 65535, 1],
                [65536, 1, 0, 65536],
                [40000, 40000, 14463, 45219],
                [256, 256, 512, 65536],
            ],
        );
        assert_eq!(rt; inverted::<Fermat>(2), Some(32769));
        check_codes::<Fermat>(&rt, 65537, &[0, 1, 2, 3, 32769, 65535, 65536])
    }

    #[test]
    fn several_elements_of_one_value(rt: HostRuntime) -> Result<(), Fail> {
        check_codes::<Loose<65537>>(&rt, 65537, &[0, 1, 2, 65536])?;
        let one = Loose::<65537>::one();
        let last = Loose::<65537>::from_code(65536).ok_or("the largest code is refused")?;
        let again = last.add(one).add(one);
        assert!(rt; again.same(one));
        assert_eq!(rt; again.code(), 1);
        Ok(())
    }

    // Each entry is -1. A row of -1 times a square matrix of -1 has the number of rows as each entry;
    // a row of -1 less -1 times a row of 1 is zero.
    #[test]
    fn rows_of_residues_wider_than_two_tables(rt: HostRuntime) {
        let minus_one = Fermat::one().neg();
        let row = [minus_one; 40];
        assert_eq!(rt; Fermat::dot(&row, &row, 0, 1).code(), 40);
        let matrix = [minus_one; 1600];
        let mut product = [Fermat::zero(); 40];
        Fermat::row_times_matrix(&row, &matrix, &mut product);
        assert!(rt; product.iter().all(|x| x.code() == 40));
        let ones = [Fermat::one(); 40];
        let mut rest = [minus_one; 40];
        Fermat::subtract_rows(&mut rest, &ones, &[39]);
        assert!(rt; rest.iter().all(|x| x.code() == 0));
    }

    // The same in rows of 32, the longest whose sums are kept in an array.
    #[test]
    fn rows_of_residues_as_wide_as_two_tables(rt: HostRuntime) {
        let minus_one = Fermat::one().neg();
        let row = [minus_one; 32];
        assert_eq!(rt; Fermat::dot(&row, &row, 0, 1).code(), 32);
        let matrix = [minus_one; 1024];
        let mut product = [Fermat::zero(); 32];
        Fermat::row_times_matrix(&row, &matrix, &mut product);
        assert!(rt; product.iter().all(|x| x.code() == 32));
        let ones = [Fermat::one(); 32];
        let mut rest = [minus_one; 32];
        Fermat::subtract_rows(&mut rest, &ones, &[31]);
        assert!(rt; rest.iter().all(|x| x.code() == 0));
    }
}
