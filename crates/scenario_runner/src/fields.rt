//! The fields of a line of a row.
use anyhow::{Context, Result};
use words36::Ppn;

/// Returns the field at a place of a line, or an empty one after the line's end.
pub fn field<'a>(fields: &[&'a str], place: usize) -> &'a str {
    fields.get(place).copied().unwrap_or("")
}

/// Returns the decimal number at a place of a line.
pub fn decimal(fields: &[&str], place: usize) -> Result<u32> {
    let field = field(fields, place);
    field
        .parse::<u32>()
        .context(format_args!("not a number: {field:?}"))
}

/// Returns the decimal number at a place of a line, or the other one after the line's end.
pub fn decimal_or(fields: &[&str], place: usize, other: u32) -> Result<u32> {
    if place < fields.len() {
        decimal(fields, place)
    } else {
        Ok(other)
    }
}

/// Returns the octal number at a place of a line.
pub fn octal(fields: &[&str], place: usize) -> Result<u64> {
    let field = field(fields, place);
    u64::from_str_radix(field, 8).context(format_args!("not a number: {field:?}"))
}

/// Returns the octal number at a place of a line, or zero after the line's end.
pub fn octal_or_zero(fields: &[&str], place: usize) -> Result<u64> {
    if place < fields.len() {
        octal(fields, place)
    } else {
        Ok(0)
    }
}

/// Returns the owner of a directory at a place of a line: `[p,n]`, in octal.
pub fn owner(fields: &[&str], place: usize) -> Result<Ppn> {
    let field = field(fields, place);
    let halves = field
        .strip_prefix('[')
        .and_then(|field| field.strip_suffix(']'))
        .and_then(|field| field.split_once(','));
    let (project, programmer) = halves.context(format_args!("not an owner: {field:?}"))?;
    let project = u32::from_str_radix(project, 8)?;
    let programmer = u32::from_str_radix(programmer, 8)?;
    Ppn::new(project, programmer).context(format_args!("not an owner: {field:?}"))
}
