//! When a function runs as its block: definitions and laws, without code.
#![tactic(auto)]
