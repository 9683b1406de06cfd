// What the printed run is made of: the text of its lines, written into a lent slice, and the records of its script.
// Reading files and writing to standard output is left to the program.
#![tactic(auto)]

pub mod lines;
pub mod script;
pub mod text;
