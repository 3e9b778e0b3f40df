// Bits in words of 64, one for each place of a vector.
ghost use Rattle.std.specs.Prelude.{◌≡◌, ◌≤◌, ◌<◌, ◌/◌, ◌↔◌, ℕ, length, IfOk, IsTrue};
ghost use Rattle.std.specs.Int.{bit_at};
ghost use Rattle.ps_elim.specs.inner.Entries.{AreEntries, IsPlace, entries_of};
ghost use Rattle.ps_elim.specs.inner.Words.{AreWordsOf, IsMarked, IsPartOf};
ghost use Rattle.ps_term.specs.declared.var.Var.TheVariants.{Global as AtPlace};

use ps_term::{Term, Var};
use std::alloc::{AllocError, Global};

// How many places a word has.
const PLACES: usize = 64;

// The words in which exactly the bits of the entries other than 0 are set.
pub(crate) fn words_of(alloc: Global, entries: &Term, places: usize) -> Result<Vec<u64>, AllocError>
    requires { AreEntries entries.now places }
    ensures { IfOk result (λ words. AreWordsOf (entries_of entries.now places) words.items) }
{
    let mut words = vec![in alloc; 0u64; places.div_ceil(PLACES)]?;
    for pair in entries.pairs.as_slice() {
        mark(&mut words, place_of(pair.0));
    }
    Ok(words)
}

// The place that the variable stands for.
fn place_of(variable: Var) -> usize
    ensures { (n : ℕ) → IsPlace variable n → (variable ≡ AtPlace result) × (result < n) }
{
    match variable {
        Var::Global(place) => place as usize,
        Var::Local(_, _) | Var::Havoc(_) => 0,
    }
}

// Sets the bit of the place.
fn mark(words: &mut [u64], place: usize)
    requires { place / 64 < length words.old }
    ensures long { length words.new ≡ length words.old }
    ensures marked { IsMarked words.old words.new place }
{
    words[place / PLACES] |= 1 << (place % PLACES);
}

// Whether each bit of the words is set in the others too.
pub(crate) fn is_inside(words: &[u64], others: &[u64]) -> bool
    requires { length words.now ≡ length others.now }
    ensures { IsTrue result ↔ IsPartOf words.now others.now }
{
    for (at, word) in words.iter().enumerate() {
        if !is_part(*word, others[at]) {
            return false;
        }
    }
    true
}

fn is_part(word: u64, other: u64) -> bool
    ensures { IsTrue result ↔ ((i : ℕ) → i < 64 → bit_at word i ≤ bit_at other i) }
{
    word & !other == 0
}
