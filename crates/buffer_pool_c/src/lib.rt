// The pool for C and Rust: the record as a struct of numbers, lent by reference, and results as structs of numbers. c/buffer_pool.h
// declares what is exported here. No exported function has a `requires`, and its contract is an equation with the direct call's
// definition (specs/Exports.antt).
#![tactic(auto)]

pub mod exports;
pub mod record;
pub mod results;
