//! Reference semantics: the meaning of functions and of the clauses of their specs.
#![tactic(auto)]
