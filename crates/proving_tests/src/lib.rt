//! Tests of axioms and substitution, of certificates with their steps, their forms and their lengths, of eliminations, of
//! what a source and a sink owe, and of the texts of reports.
#![tactic(auto)]

#[cfg(test)]
mod axioms_tests;
#[cfg(test)]
mod bad_cert_tests;
#[cfg(test)]
mod cert_tests;
#[cfg(test)]
mod form_tests;
#[cfg(test)]
mod length_tests;
#[cfg(test)]
mod lin_arith_tests;
#[cfg(test)]
mod long_tests;
#[cfg(test)]
mod numeral_tests;
#[cfg(test)]
mod outside_tests;
#[cfg(test)]
mod pool_length_tests;
#[cfg(test)]
mod report_tests;
#[cfg(test)]
mod step_tests;
#[cfg(test)]
mod substitute_tests;
#[cfg(test)]
mod substitution_tests;
#[cfg(test)]
mod whole_tests;
