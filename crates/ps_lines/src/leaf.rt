//! Values that stand in one field, and lists of them.

ghost use Rattle.std.specs.Prelude.{◌≡◌, List, Option, Result, Some, None, ℕ};
ghost use Rattle.ps_lines.specs.Until.{goes};
ghost use Rattle.ps_lines.specs.Reading.{Reads, Gives, leaf_at, list_at};
ghost use Rattle.ps_lines.specs.inner.Ahead.{member_at};
ghost use Rattle.ps_lines.specs.declared.form_name.FormName.{FormName};

use crate::form_end::FormEnd;
use crate::form_fault::FormFault;
use crate::form_name::FormName;
use crate::reader::Reader;
use crate::until::Until;
use std::alloc::Global;

/// A form of one field. Its type has no values of its own: it says what a field stands for, which may depend on the
/// member before it in its list.
pub trait Leaf {
    /// What a field of the form stands for.
    type Value: Copy;

    ghost reading: { Option Self.Value → List ℕ → Result Self.Value FormName };

    fn read(before: Option<Self::Value>, field: &[u8]) -> Result<Self::Value, FormName>
        ensures { result ≡ reading before field.now };
}

/// Takes the next field, as a value.
#[tactic(auto, unfolding(crate::specs::Reading::leaf_at, crate::specs::Steps::and_then))]
pub fn take_leaf<'a, L: Leaf>(
    before: Option<L::Value>,
    reader: &mut Reader<'a>,
) -> Result<L::Value, FormFault>
    ensures { Reads (λ x. x) result reader.new (leaf_at (L.reading before) reader.old) }
{
    let fault = reader.fault(FormName::Field);
    let field = reader.field()?;
    match L::read(before, field) {
        Ok(x) => Ok(x),
        Err(what) => Err(fault.named(what)),
    }
}

// The next member of a list, or none where the list ends.
#[tactic(auto, using(crate::proofs::Members::member_none, crate::proofs::Members::member_some, crate::proofs::Members::member_fault))]
fn member<'a, L: Leaf>(
    until: &Until<'_>,
    before: Option<L::Value>,
    reader: &mut Reader<'a>,
) -> Result<Option<L::Value>, FormFault>
    ensures { Reads (λ x. x) result reader.new
        (member_at (goes until.now) (L.reading before) reader.old) }
{
    let fault = reader.fault(FormName::Field);
    let Some(field) = reader.member(until) else {
        return Ok(None);
    };
    match L::read(before, field) {
        Ok(x) => Ok(Some(x)),
        Err(what) => Err(fault.named(what)),
    }
}

/// The members of a list in a line, each read with the one before it. Counts them first, so that the list takes memory
/// once, and no more than it needs.
#[tactic(auto, using(crate::proofs::Loop::many_none, crate::proofs::Loop::many_more, crate::proofs::Loop::many_all))]
pub fn list<'a, L: Leaf>(
    alloc: Global,
    until: &Until<'_>,
    reader: &mut Reader<'a>,
) -> Result<Vec<L::Value>, FormEnd>
    ensures { Gives (λ v. v.items) result reader.new
        (list_at (goes until.now) L.reading (λ _ x. Some x) None reader.old) }
{
    let mut list = Vec::with_capacity(alloc, reader.members_ahead(until, usize::MAX))?;
    let mut before = None;
    'reading: loop {
        match member::<L>(until, before, reader)? {
            Some(x) => {
                list.push(x)?;
                before = Some(x);
            }
            None => return Ok(list),
        }
    }
}
