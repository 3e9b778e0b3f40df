//! Printing predicates, entries and configurations.
ghost use Rattle.std.specs.Prelude.{◌≡◌, ◌∷◌, ◌++◌, OnOk, decimal};
ghost use Rattle.std.specs.List.{flat_map};
ghost use Rattle.ps_atom_text.specs.Spelling.{atom_text, config_fields, config_line, entry_line, initial_line, lambda_fields, place_text, predicate_line, threads_text, triple_line};
ghost use Rattle.ps_lines.specs.Tokens.{after_blank, line_bytes};

use ps_atom::{Atom, Predicate};
use ps_config::Config;
use ps_term_text::put_term;
use ps_text::{put_digits, put_end, put_field, put_natural, put_word};
use ps_triple::{Entry, Initial, Triple};
use std::alloc::AllocError;

// Threads, each after a comma.
fn put_after_commas(out: &mut Vec<u8>, threads: &[u32]) -> Result<(), AllocError>
    ensures { OnOk result
        (out.new.items ≡ out.old.items ++ flat_map (λ t. 44 ∷ decimal t) threads.now) }
{
    for thread in threads {
        put_word(out, b",")?;
        put_digits(out, u128::from(*thread))?;
    }
    Ok(())
}

// The threads of an atom.
fn put_threads(out: &mut Vec<u8>, threads: &[u32]) -> Result<(), AllocError>
    ensures { OnOk result (out.new.items ≡ out.old.items ++ threads_text threads.now) }
{
    match threads.split_first() {
        Some((first, rest)) => {
            put_word(out, b":")?;
            put_digits(out, u128::from(*first))?;
            put_after_commas(out, rest)
        }
        None => Ok(()),
    }
}

// An atom as a further field.
fn put_atom(out: &mut Vec<u8>, atom: &Atom) -> Result<(), AllocError>
    ensures { OnOk result (out.new.items ≡ out.old.items ++ after_blank (atom_text atom.now)) }
{
    put_natural(out, u128::from(atom.predicate))?;
    put_threads(out, atom.threads.as_slice())
}

fn put_atoms(out: &mut Vec<u8>, atoms: &[Atom]) -> Result<(), AllocError>
    ensures { OnOk result
        (out.new.items ≡ out.old.items ++ flat_map (λ q. after_blank (atom_text q)) atoms.now) }
{
    for atom in atoms {
        put_atom(out, atom)?;
    }
    Ok(())
}

// A thread at its location as a further field.
fn put_place(out: &mut Vec<u8>, place: (u32, u32)) -> Result<(), AllocError>
    ensures { OnOk result (out.new.items ≡ out.old.items ++ after_blank (place_text place)) }
{
    put_natural(out, u128::from(place.0))?;
    put_word(out, b":")?;
    put_digits(out, u128::from(place.1))
}

fn put_places(out: &mut Vec<u8>, places: &[(u32, u32)]) -> Result<(), AllocError>
    ensures { OnOk result
        (out.new.items ≡ out.old.items ++ flat_map (λ p. after_blank (place_text p)) places.now) }
{
    for place in places {
        put_place(out, *place)?;
    }
    Ok(())
}

// `by` and multipliers.
fn put_lambda(out: &mut Vec<u8>, lambda: &[u128]) -> Result<(), AllocError>
    ensures { OnOk result
        (out.new.items ≡ out.old.items ++ flat_map after_blank (lambda_fields lambda.now)) }
{
    put_field(out, b"by")?;
    for n in lambda {
        put_natural(out, *n)?;
    }
    Ok(())
}

fn put_initial(out: &mut Vec<u8>, initial: &Initial) -> Result<(), AllocError>
    ensures { OnOk result
        (out.new.items ≡ out.old.items ++ line_bytes (initial_line initial.now)) }
{
    put_word(out, b"init")?;
    put_natural(out, u128::from(initial.predicate))?;
    put_lambda(out, initial.lambda.as_slice())?;
    put_end(out)
}

fn put_triple(out: &mut Vec<u8>, triple: &Triple) -> Result<(), AllocError>
    ensures { OnOk result (out.new.items ≡ out.old.items ++ line_bytes (triple_line triple.now)) }
{
    put_word(out, b"triple")?;
    put_natural(out, u128::from(triple.command))?;
    put_field(out, b"post")?;
    put_atom(out, &triple.post)?;
    put_field(out, b"pre")?;
    put_atoms(out, triple.pre.as_slice())?;
    put_lambda(out, triple.lambda.as_slice())?;
    put_end(out)
}

/// Puts a line of a predicate, which is read back as it where its numbers are within the limits of reading.
pub fn put_predicate(out: &mut Vec<u8>, predicate: &Predicate) -> Result<(), AllocError>
    ensures { OnOk result
        (out.new.items ≡ out.old.items ++ line_bytes (predicate_line predicate.now)) }
{
    put_word(out, b"pred")?;
    put_natural(out, u128::from(predicate.arity))?;
    put_term(out, &predicate.row.term)?;
    put_end(out)
}

/// Puts a line of an entry, which is read back as it where it is within the limits of reading.
pub fn put_entry(out: &mut Vec<u8>, entry: &Entry) -> Result<(), AllocError>
    ensures { OnOk result (out.new.items ≡ out.old.items ++ line_bytes (entry_line entry.now)) }
{
    match entry {
        Entry::Triple(triple) => put_triple(out, triple),
        Entry::Initial(initial) => put_initial(out, initial),
    }
}

/// Puts a configuration as the last fields of a line, which are read back as it where its numbers are within the
/// limits of reading.
pub fn put_config_fields(out: &mut Vec<u8>, config: &Config) -> Result<(), AllocError>
    ensures { OnOk result
        (out.new.items ≡ out.old.items ++ flat_map after_blank (config_fields config.now)) }
{
    put_field(out, b"at")?;
    put_places(out, config.at())?;
    put_field(out, b"has")?;
    put_atoms(out, config.atoms())
}

/// Puts a line of a configuration.
pub fn put_config(out: &mut Vec<u8>, config: &Config) -> Result<(), AllocError>
    ensures { OnOk result (out.new.items ≡ out.old.items ++ line_bytes (config_line config.now)) }
{
    put_word(out, b"config")?;
    put_config_fields(out, config)?;
    put_end(out)
}
