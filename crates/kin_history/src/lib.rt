//! What a list of events means: the definitions over histories, with their laws.
#![tactic(auto)]

pub mod laws;
