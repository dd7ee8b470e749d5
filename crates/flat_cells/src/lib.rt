// Flat lines for the cells of one line.
#![tactic(auto)]

pub mod cells; // the flat line of a cell
pub mod lines; // what is kept and known of the lines so far
pub mod made; // what lines leave
pub mod rows; // the lines for each cell
pub mod sources; // where the words of a row come from
pub mod written; // cells written out
