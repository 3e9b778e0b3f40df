//! Configurations as lines.
ghost use Rattle.std.specs.Prelude.{◌≡◌};
ghost use Rattle.ps_atom_text.specs.Reading.{config_at, configuration_at};
ghost use Rattle.ps_lines.specs.Reading.{Gives};

use crate::draft::{take_atoms, take_places};
use ps_config::Config;
use ps_text::{Form, FormEnd, Reader};
use std::alloc::Global;

/// Takes a configuration, the last fields of a line: `at T:L T:L has ATOM ATOM`.
#[tactic(auto, unfolding(crate::specs::Reading::configuration_at, ps_lines::specs::Steps::and_then))]
pub fn take_config<'a>(alloc: Global, reader: &mut Reader<'a>) -> Result<Config, FormEnd>
    ensures { Gives (λ x. x) result reader.new (configuration_at reader.old) }
{
    reader.word(b"at")?;
    let located = take_places(alloc, reader)?;
    reader.word(b"has")?;
    let draft = take_atoms(alloc, located, reader)?;
    Ok(draft.into_config())
}

/// A line `config at T:L T:L has ATOM ATOM`.
pub struct ConfigLine;

impl Form for ConfigLine {
    type Value = Config;

    ghost reading = { config_at };

    #[tactic(auto, unfolding(crate::specs::Reading::config_at, ps_lines::specs::Steps::and_then))]
    fn take<'a>(alloc: Global, reader: &mut Reader<'a>) -> Result<Config, FormEnd> {
        reader.line(b"config")?;
        let config = take_config(alloc, reader)?;
        reader.end()?;
        Ok(config)
    }
}
