//! Tests of calls with values that are built by hand: bytes, lists, terms, supports, sets and predicates. Each helper answers
//! whether all that it looks at is as it should be.
#![tactic(auto)]

#[cfg(test)]
mod atoms;
#[cfg(test)]
mod hits;
#[cfg(test)]
mod hosts;
#[cfg(test)]
mod limits;
#[cfg(test)]
mod lists;
#[cfg(test)]
mod predicates;
#[cfg(test)]
mod rows;
#[cfg(test)]
mod sources;
#[cfg(test)]
mod supports;
#[cfg(test)]
mod tables;
#[cfg(test)]
mod terms;
#[cfg(test)]
mod whole;
