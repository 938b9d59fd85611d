//! Tests of scopes, over modules that are read from texts.
#![tactic(auto)]

#[cfg(test)]
mod scope_tests;
