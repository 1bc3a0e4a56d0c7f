//! What an object tells that answers questions, and what it promises of each call. Objects that tell the values of keys are seen as
//! objects that answer a layer's questions. Contracts are made of these words; the crate has no code.
#![tactic(auto)]
