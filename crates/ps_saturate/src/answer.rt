//! Answers.
ghost use Rattle.std.specs.Prelude.{◌≡◌};
ghost use Rattle.ps_saturate.specs.Answered.{IsAnswer, IsAnswerTo};

use crate::question::Question;
use ps_atom::Predicates;
use ps_command::Setting;
use ps_triple::Entry;
use std::marker::Model;
use std::snapshot::Snapshot;

/// The triples that a question asks for. The setting, the predicates and the width are kept for contracts alone, and take no
/// bytes.
#[derive(Drop)]
pub struct Answer {
    question: Question,
    entries: Vec<Entry>,
    setting: Snapshot<Setting>,
    predicates: Snapshot<Predicates>,
    width: Snapshot<u32>,
}

impl Model for Answer {
    ghost use Rattle.ps_saturate.specs.Answered.{Answered, IsAnswer};

    ghost Value = { Answered };

    ghost view = { λ a. record {
      setting = a.setting.value;
      predicates = a.predicates.value;
      question = a.question;
      width = a.width.value;
      entries = a.entries.items;
    } };

    ghost invariant = { λ a. IsAnswer (record {
      setting = a.setting.value;
      predicates = a.predicates.value;
      question = a.question;
      width = a.width.value;
      entries = a.entries.items;
    }) };
}

impl Answer {
    // The answer with what it was made for; the call needs no memory.
    pub(crate) fn new(
        setting: &Setting,
        predicates: &Predicates,
        question: Question,
        width: u32,
        entries: Vec<Entry>,
    ) -> Answer
        requires { IsAnswerTo setting.now predicates.now question width entries.items }
        ensures { result ≡ record {
          setting = setting.now;
          predicates = predicates.now;
          question = question;
          width = width;
          entries = entries.items;
        } }
    {
        Answer {
            question,
            entries,
            setting: Snapshot::of(setting),
            predicates: Snapshot::of(predicates),
            width: Snapshot::of(&width),
        }
    }

    /// What was asked; the call needs no memory.
    pub fn question(&self) -> Question
        ensures { result ≡ self.now.question }
    {
        self.question
    }

    /// The triples in order; the call needs no memory.
    pub fn entries(&self) -> &[Entry]
        ensures entries { result.now ≡ self.now.entries }
        ensures answer { IsAnswer self.now }
    {
        self.entries.as_slice()
    }

    /// Gives the triples in order; the call needs no memory.
    pub fn into_entries(self) -> Vec<Entry>
        ensures entries { result.items ≡ self.entries }
        ensures answer { IsAnswer self }
    {
        let Answer { entries, .. } = self;
        entries
    }
}
