//! Where the first threads of a configuration go.
ghost use Rattle.std.specs.Prelude.{◌≡◌, ◌++◌, ◌∷◌, ◌<◌, [], length};

use ps_config::{Few, MOST_THREADS};

/// The threads that have an image so far, and their images.
#[derive(Drop)]
pub(crate) struct Partial {
    pub threads: Few,
    pub to: Few,
}

impl Partial {
    pub fn none() -> Partial
        ensures threads { result.threads ≡ [] }
        ensures to { result.to ≡ [] }
    {
        Partial {
            threads: Few::none(),
            to: Few::none(),
        }
    }

    /// The same, and one more thread goes to an image.
    pub fn with(&self, thread: u32, image: u32) -> Partial
        requires threads { length self.now.threads < MOST_THREADS }
        requires to { length self.now.to < MOST_THREADS }
        ensures threads { result.threads ≡ self.now.threads ++ thread ∷ [] }
        ensures to { result.to ≡ self.now.to ++ image ∷ [] }
    {
        Partial {
            threads: self.threads.with(thread),
            to: self.to.with(image),
        }
    }
}
