// Loading: the bytes of a document become a session, or a numbered refusal.
#![tactic(auto)]

pub mod checking;
pub mod entering;
pub mod loading;
