//! The making of symbolic forms.
ghost use Rattle.std.specs.Prelude.{◌≡◌, ◌<◌, ◌^◌, IfOk, OnOk, IsErrOf, length};
ghost use Rattle.ps_command.specs.Form.{form_of, FormFits};
ghost use Rattle.ps_command.specs.Run.{havocs_in};

use crate::command::Command;
use crate::form_builder::FormBuilder;
use crate::symbolic_form::SymbolicForm;
use ps_term::TermEnd;
use std::alloc::Global;

/// The symbolic form of the command: a row for each assume, in order, and the terms that variables are worth after it, in
/// the order of the variables. Op after op, the terms so far are put into the op's term by the rule of `substitute` of
/// ps_term; it is `Past128` where a product or a partial sum of one of these lies outside `i128`. The time is that of the
/// pairs of all terms times that of the terms put in, each found by a binary search.
pub fn symbolic(alloc: Global, command: &Command) -> Result<SymbolicForm, TermEnd>
    requires { length command.now.ops < 2 ^ 32 }
    ensures form { IfOk result (λ form. form ≡ form_of command.now.ops) }
    ensures havocs { IfOk result (λ form. form.havocs ≡ havocs_in command.now.ops) }
    ensures fits { OnOk result (FormFits command.now.ops) }
    ensures past { IsErrOf result TermEnd.Past128 → ¬ FormFits command.now.ops }
{
    let mut builder = FormBuilder::new(alloc);
    for op in command.ops.as_slice() {
        builder.take(alloc, op)?;
    }
    Ok(builder.into_form())
}
