//! Answers in turn, of which like ones that follow each other are counted.
use ps_text::{put_digits, put_word};
use std::alloc::{AllocError, Global};

/// What is known of answers so far: `COUNT times ANSWER` for each of those before the last ones, and the last ones.
#[derive(Drop)]
pub struct Repeats {
    before: Vec<u8>,
    last: Vec<u8>,
    count: u32,
}

impl Repeats {
    pub fn new(alloc: Global) -> Repeats {
        Repeats {
            before: Vec::new(alloc),
            last: Vec::new(alloc),
            count: 0,
        }
    }

    /// Takes the next answer.
    pub fn note(&mut self, answer: &[u8]) -> Result<(), AllocError> {
        if self.count > 0 && self.last.as_slice() == answer {
            self.count = self.count.saturating_add(1);
            return Ok(());
        }
        self.close()?;
        self.last.clear();
        put_word(&mut self.last, answer)?;
        self.count = 1;
        Ok(())
    }

    /// All of them, with `, ` between.
    pub fn into_text(mut self) -> Result<Vec<u8>, AllocError> {
        self.close()?;
        Ok(self.before)
    }

    // Puts the last answers to those before, if there are any.
    fn close(&mut self) -> Result<(), AllocError> {
        if self.count == 0 {
            return Ok(());
        }
        if !self.before.is_empty() {
            put_word(&mut self.before, b", ")?;
        }
        put_digits(&mut self.before, u128::from(self.count))?;
        put_word(&mut self.before, b" times ")?;
        put_word(&mut self.before, self.last.as_slice())
    }
}
