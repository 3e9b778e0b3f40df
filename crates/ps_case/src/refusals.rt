//! Faults of forms, as cases expect them.
use ps_text::{FormEnd, FormFault, FormName};
use std::alloc::{AllocError, Global};

/// `line L field F: FAULT`, where the text isn't of its form.
pub fn form_refusal(alloc: Global, end: FormEnd) -> Result<Vec<u8>, AllocError> {
    match end {
        FormEnd::Fault(fault) => text_of(alloc, fault),
        FormEnd::Memory(end) => Err(end),
    }
}

fn text_of(alloc: Global, fault: FormFault) -> Result<Vec<u8>, AllocError> {
    let FormFault { line, field, what } = fault;
    let text = format!(in alloc; "line {line} field {field}: {}", name_of(what))?;
    Ok(text.into_bytes())
}

fn name_of(what: FormName) -> &'static str {
    match what {
        FormName::Cut => "cut",
        FormName::Word => "word",
        FormName::Field => "field",
        FormName::Number => "number",
        FormName::Order => "order",
        FormName::Count => "count",
        FormName::Limit => "limit",
    }
}
