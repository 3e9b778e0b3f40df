//! The lines that are written where there is no other answer.
ghost use Rattle.std.specs.Prelude.{◌≡◌, IfOk};
ghost use Rattle.ps_modes.specs.Texts.{fault_name, fault_line};

use ps_text::{FormFault, FormName};
use std::alloc::{AllocError, Global};

/// The answer yes.
pub const YES: &str = "yes\n";

/// The answer no.
pub const NO: &str = "no\n";

/// The answer to a proof that is accepted.
pub const ACCEPTED: &str = "accepted\n";

/// Refuses an input of more bytes than may be read.
pub const TOO_LONG: &str = "input: too long\n";

/// Refuses an input that leads to a number past 128 bits.
pub const PAST: &str = "input: past 128 bits\n";

/// Refuses an input of several parts without a mark.
pub const NO_MARK: &str = "input: no mark\n";

/// Refuses an input with a part that is too long.
pub const LIMIT_PART: &str = "input: limit part\n";

/// Written where the words ask for nothing that is built.
pub const USAGE: &str = "usage: proofspace MODE [options]\n";

/// `input: line L field F: NAME`, ended by a line feed.
pub fn fault_line(alloc: Global, fault: &FormFault) -> Result<Vec<u8>, AllocError>
    ensures { IfOk result (λ text. text.items ≡ fault_line fault.now) }
{
    let line = fault.line;
    let field = fault.field;
    let name = fault_name(fault.what);
    let text = format!(in alloc; "input: line {line} field {field}: {name}\n")?;
    Ok(text.into_bytes())
}

/// The name of a fault, as texts and documents spell it.
fn fault_name(what: FormName) -> &'static str
    ensures { result.now ≡ fault_name what }
{
    match what {
        FormName::Cut => "cut",
        FormName::Word => "word",
        FormName::Field => "field",
        FormName::Number => "number",
        FormName::Order => "order",
        FormName::Count => "count",
        FormName::Limit => "limit",
    }
}
