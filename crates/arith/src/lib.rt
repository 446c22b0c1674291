// Whole-number arithmetic: the root, the capped quotient of a product that may pass 64 bits, and
// leaves on signed numbers.
#![tactic(auto)]

pub mod quotient;
pub mod root;
pub mod signed;
