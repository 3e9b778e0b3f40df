//! How many cases ran of each kind.
use std::alloc::{AllocError, Global};
use std::string::String;

/// The kinds met so far, in the order of their first cases, with the number of cases of each.
#[derive(Drop)]
pub(crate) struct Tally {
    kinds: Vec<(String, u32)>,
}

impl Tally {
    pub(crate) fn new(alloc: Global) -> Tally {
        Tally {
            kinds: Vec::new(alloc),
        }
    }

    /// Counts a case of this kind.
    pub(crate) fn note(&mut self, alloc: Global, kind: &str) -> Result<(), AllocError> {
        if !count(&mut self.kinds, kind) {
            self.kinds.push((String::from_str(alloc, kind)?, 1))?;
        }
        Ok(())
    }

    /// A line for each kind, the last one without its line feed.
    pub(crate) fn text(&self, alloc: Global) -> Result<String, AllocError> {
        let mut text = String::new(alloc);
        for (kind, count) in &self.kinds {
            if !text.is_empty() {
                text.push('\n')?;
            }
            text.push_str(format!(in alloc; "{kind}: {count}")?.as_str())?;
        }
        Ok(text)
    }
}

// Counts one more of the kind, where it was met before.
fn count(kinds: &mut Vec<(String, u32)>, kind: &str) -> bool {
    for entry in kinds.iter_mut() {
        if entry.0.as_str() == kind {
            entry.1 = entry.1.saturating_add(1);
            return true;
        }
    }
    false
}
