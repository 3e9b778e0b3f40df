// What the sets of a question are tried with.

use crate::question::Question;
use ps_atom::{Atom, Predicate};
use ps_command::Setting;
use ps_term::Row;

// The command and the post of a question, with the rows that all its sets have in common.
#[derive(Drop)]
pub(crate) struct Trial<'a> {
    pub(crate) setting: &'a Setting,
    pub(crate) predicates: &'a [Predicate],
    pub(crate) question: Question,
    pub(crate) width: u32,
    pub(crate) post: Atom,
    // The rows of the command, and the one that the post fails after it.
    pub(crate) rows: Vec<Row>,
}
