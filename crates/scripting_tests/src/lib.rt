//! Tests of what no clause states: that memory suffices for a script. What is shown is worked out by hand.
#![tactic(auto)]

#[cfg(test)]
mod tests {
    use scripting::performing::{Failure, run_script};

    // The word of m letters weighs the m-th Fibonacci number, and its square in the product.
    const SCRIPT: &[u8] = b"text fibonacci 177
T          2          1      65537
S          1          0
M          1          1          0          1
M          1          2          1          1
E          0          1
Z

load fibonacci 1
multiply 1 1 2
reduce 2 3
compare 2 3
compare 1 2
weigh 3 1 1 1 1 1 1

# What is refused, and another shelf.
weigh 1 1 2
lend 0 0
write 1
field 2
clear 1
";

    const SHOWN: &[u8] = b"9 load: done
10 multiply: done
11 reduce: done
12 compare: alike, 4 tried, 3 kept
13 compare: differs at 1 1 1, weighs 2 and 4, 4 tried
14 weigh: 64
17 weigh: refused 7 at position 2, a letter is outside the table's letters
19 write: refused 9, the output is too short
21 clear: refused 4, a place is empty
";

    #[test]
    fn performs_a_script(rt: HostRuntime) -> Result<(), Failure> {
        assert_eq!(rt; run_script(rt.alloc(), SCRIPT)?.as_slice(), SHOWN);
        Ok(())
    }

    // A line for each reason but the lack of memory, which no line draws.
    const MISTAKEN: &str = "jump 1
sum 1 2
clear 1 2
clear x
clear 18446744073709551616
after 1 256 2
open 12545
field 3
load missing 1
text a 1
xyz
text b 9
clear 1
";

    const MISTAKES: &str = "line 1: unknown command
line 2: an argument is missing
line 3: too many arguments
line 4: expected a number
line 5: a number is too large
line 6: a number is too large
line 7: a number is too large
line 8: unknown field
line 9: the file cannot be read
line 10: expected a newline after the text
line 12: the script ends inside the text
";

    #[test]
    fn reports_mistakes(rt: HostRuntime) -> Result<(), Failure> {
        let heap = rt.alloc();
        let mut text = String::new(heap);
        if let Err(Failure::Mistaken(mistakes)) = run_script(heap, MISTAKEN.as_bytes()) {
            for mistake in mistakes.iter() {
                let line = format!(in heap; "{mistake}\n")?;
                text.push_str(line.as_str())?;
            }
        }
        assert_eq!(rt; text.as_str(), MISTAKES);
        Ok(())
    }
}
