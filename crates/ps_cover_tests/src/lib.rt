//! Tests of configurations and of covering, by cases that are text, and against a slow search.
#![tactic(auto)]

#[cfg(test)]
mod among;
#[cfg(test)]
mod configs;
#[cfg(test)]
mod coverings;
#[cfg(test)]
mod embeds;
#[cfg(test)]
mod slow;
#[cfg(test)]
mod table;
pub mod text;
