//! Texts of tables over 65537 elements, and what a text is refused for.
use book::refusal::Refusal;
use faults::{LineFault, LoadFault};

/// Two states and one letter: the word of m letters weighs the m-th Fibonacci number.
pub const FIBONACCI: [u8; 177] = *b"T          2          1      65537\n\
    S          1          0\n\
    M          1          1          0          1\n\
    M          1          2          1          1\n\
    E          0          1\n\
    Z\n";

/// One state and one letter: every word weighs one.
pub const ONES: [u8; 98] = *b"T          1          1      65537\n\
    S          1\n\
    M          1          1          1\n\
    E          1\n\
    Z\n";

/// Two states and two letters that do not commute: the words 1 2 and 2 1 weigh zero and one.
pub const TWISTED: [u8; 269] = *b"T          2          2      65537\n\
    S          1          0\n\
    M          1          1          0          1\n\
    M          1          2          1          1\n\
    M          2          1          1          1\n\
    M          2          2          0          1\n\
    E          1          0\n\
    Z\n";

/// One state and two letters: every word weighs one.
pub const PAIR: [u8; 133] = *b"T          1          2      65537\n\
    S          1\n\
    M          1          1          1\n\
    M          2          1          1\n\
    E          1\n\
    Z\n";

/// A text is refused for a fault of a line.
pub fn in_line(fault: LineFault) -> Refusal {
    Refusal::Unreadable(LoadFault::Line(fault))
}
