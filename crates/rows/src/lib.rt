//! Rows and tables in lent memory: how a table lies there, arithmetic on its rows, a table written part by part, and the
//! weight of a word. It knows nothing of places, entries or refusals.
#![tactic(auto)]

pub mod row;
pub mod table;
pub mod table_parts;
pub mod weight;
