//! Tests of the parsers, by the trees and the faults that they answer.
#![tactic(auto)]

#[cfg(test)]
mod expression_tests;
#[cfg(test)]
mod module_tests;
