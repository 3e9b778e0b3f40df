//! Printing proofs.
ghost use Rattle.std.specs.Prelude.{◌≡◌, ◌++◌, [], ◌∷◌, IfOk, OnOk, codes, decimal, length};
ghost use Rattle.ps_atom_text.specs.Spelling.{config_line, entry_line, predicate_line};
ghost use Rattle.ps_file.specs.Spelling.{listed, proof_lines};
ghost use Rattle.ps_lines.specs.Tokens.{line_bytes, text_bytes};

use crate::proof::Proof;
use ps_atom::Predicate;
use ps_atom_text::{put_config, put_entry, put_predicate};
use ps_config::Config;
use ps_text::{put_end, put_field, put_natural, put_only, put_word};
use ps_triple::Entry;
use std::alloc::{AllocError, Global};

// The line `proof 1`.
fn put_version(out: &mut Vec<u8>) -> Result<(), AllocError>
    ensures { OnOk result
        (out.new.items ≡ out.old.items ++ line_bytes (codes "proof", codes "1" ∷ [])) }
{
    put_word(out, b"proof")?;
    put_field(out, b"1")?;
    put_end(out)
}

// A line of a word and how many there are.
fn put_count(out: &mut Vec<u8>, word: &[u8], count: usize) -> Result<(), AllocError>
    ensures { OnOk result
        (out.new.items ≡ out.old.items ++ line_bytes (word.now, decimal count ∷ [])) }
{
    put_word(out, word)?;
    put_natural(out, count as u128)?;
    put_end(out)
}

fn put_predicates(out: &mut Vec<u8>, predicates: &[Predicate]) -> Result<(), AllocError>
    ensures { OnOk result (out.new.items
        ≡ out.old.items ++ text_bytes (listed (codes "preds") predicate_line predicates.now)) }
{
    put_count(out, b"preds", predicates.len())?;
    for predicate in predicates {
        put_predicate(out, predicate)?;
    }
    Ok(())
}

fn put_entries(out: &mut Vec<u8>, entries: &[Entry]) -> Result<(), AllocError>
    ensures { OnOk result (out.new.items
        ≡ out.old.items ++ text_bytes (listed (codes "entries") entry_line entries.now)) }
{
    put_count(out, b"entries", entries.len())?;
    for entry in entries {
        put_entry(out, entry)?;
    }
    Ok(())
}

fn put_configs(out: &mut Vec<u8>, configs: &[Config]) -> Result<(), AllocError>
    ensures { OnOk result (out.new.items
        ≡ out.old.items ++ text_bytes (listed (codes "configs") config_line configs.now)) }
{
    put_count(out, b"configs", configs.len())?;
    for config in configs {
        put_config(out, config)?;
    }
    Ok(())
}

/// The text of a proof, which is read back as it where it is within the limits of reading. In time and memory of the
/// text.
pub fn print_proof(alloc: Global, proof: &Proof) -> Result<Vec<u8>, AllocError>
    ensures { IfOk result (λ text. text.items ≡ text_bytes (proof_lines proof.now)) }
{
    let mut out = Vec::new(alloc);
    put_version(&mut out)?;
    put_predicates(&mut out, proof.predicates.as_slice())?;
    put_entries(&mut out, proof.entries.as_slice())?;
    put_configs(&mut out, proof.configs.as_slice())?;
    put_only(&mut out, b"end")?;
    Ok(out)
}
