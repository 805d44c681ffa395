//! Tests of the shelf: every refusal of every call with all that it leaves as it was, results put where they are read
//! from, and lists of calls. Expected numbers were worked out by another program.
#![tactic(auto)]

#[cfg(test)]
mod accepted;
#[cfg(test)]
mod bench;
#[cfg(test)]
mod calls;
#[cfg(test)]
mod codes;
#[cfg(test)]
mod lists;
#[cfg(test)]
mod refusals;
#[cfg(test)]
mod texts;
#[cfg(test)]
mod words;
