//! The grammar of rule texts: definitions, readers and laws, without code.
#![tactic(auto)]
