//! Tests of calls with values that are built by hand: forms of texts, program trees, commands and settings. Each helper answers
//! whether all that it looks at is as it should be.
#![tactic(auto)]

#[cfg(test)]
mod commands;
#[cfg(test)]
mod copies;
#[cfg(test)]
mod printed_conds;
#[cfg(test)]
mod printed_stmts;
#[cfg(test)]
mod printed_sums;
#[cfg(test)]
mod readers;
#[cfg(test)]
mod settings;
#[cfg(test)]
mod small_programs;
#[cfg(test)]
mod tokens;
