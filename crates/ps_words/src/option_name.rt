//! The options of the command line, each with a name and a whole number.
ghost use Rattle.std.specs.Prelude.{◌≡◌};
ghost use Rattle.ps_words.specs.Options.{option_name, least_number, most_number, default_number, default_text};

/// An option, which takes a whole number.
#[derive(Clone, Copy)]
pub enum OptionName {
    /// The workers that prefer nodes.
    Explorers,
    /// The workers that prefer traces.
    Provers,
    /// The most nodes of a search.
    Nodes,
    /// The most traces that a search records.
    Traces,
    /// The most atoms of a condition that a question asks for.
    Width,
    /// The size of the program that is made.
    Size,
}

impl OptionName {
    /// The name, which the words spell after `--`.
    pub fn name(self) -> &'static str
        ensures { result.now ≡ option_name self }
    {
        match self {
            OptionName::Explorers => "explorers",
            OptionName::Provers => "provers",
            OptionName::Nodes => "nodes",
            OptionName::Traces => "traces",
            OptionName::Width => "width",
            OptionName::Size => "size",
        }
    }

    /// The least number that it takes.
    pub fn least(self) -> u32
        ensures { result ≡ least_number self }
    {
        match self {
            OptionName::Traces | OptionName::Width => 0,
            _ => 1,
        }
    }

    /// The greatest number that it takes.
    pub fn most(self) -> u32
        ensures { result ≡ most_number self }
    {
        match self {
            OptionName::Explorers | OptionName::Provers | OptionName::Size => 16,
            OptionName::Nodes => 65_536,
            OptionName::Traces => 4096,
            OptionName::Width => 2,
        }
    }

    /// The number that stands where the words name none.
    pub fn default(self) -> u32
        ensures { result ≡ default_number self }
    {
        match self {
            OptionName::Explorers | OptionName::Provers => 2,
            OptionName::Nodes => 4096,
            OptionName::Traces => 256,
            OptionName::Width => 1,
            OptionName::Size => 4,
        }
    }

    /// That number in decimal.
    pub fn default_text(self) -> &'static str
        ensures { result.now ≡ default_text self }
    {
        match self {
            OptionName::Explorers | OptionName::Provers => "2",
            OptionName::Nodes => "4096",
            OptionName::Traces => "256",
            OptionName::Width => "1",
            OptionName::Size => "4",
        }
    }
}
