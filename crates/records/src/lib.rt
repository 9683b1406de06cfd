// The records of a document: the constant tables, the fields of a body, and one record cut from the bytes.
#![tactic(auto)]

pub mod fields;
pub mod reading;
pub mod tables;
