//! The details of a refusal, which are not printed with it.
ghost use Rattle.std.specs.Prelude.{◌≡◌, true};
ghost use Rattle.commands.specs.Common.{counts};

/// The reason why bytes can't be a file.
#[derive(Clone, Copy, Debug, PartialEq, Eq)]
pub enum Misfit {
    /// The first byte that isn't a character of a file, and its place, counted from 1.
    Byte(u8, usize),
    /// Their number, which isn't a multiple of eight.
    Length(usize),
    /// The first word that has bits above its 36, counted from 1.
    Word(usize),
    /// There are more bytes than a file can hold, which is at most this many.
    Excess(usize),
}

/// Lines of an input that were refused.
#[derive(Clone, Copy, Debug, PartialEq, Eq)]
pub struct RefusedLines {
    /// Their number, up to the largest `u64`.
    pub count: u64,
    /// The number of the first, which is one more than the line feeds before it; up to the largest `u64`.
    pub first: u64,
}

/// The details of a refusal that people may be told, besides what is printed.
#[derive(Clone, Copy, Debug, PartialEq, Eq)]
pub enum Reason {
    /// Lines were refused.
    Lines(RefusedLines),
    /// The input can't be a file.
    Input(Misfit),
}

/// Adds one refused line, which has this number, to the count.
pub(crate) fn with_line(reason: Option<Reason>, number: u64) -> Option<Reason>
    ensures { result ≡ counts reason number true }
{
    match reason {
        None => Some(Reason::Lines(RefusedLines {
            count: 1,
            first: number,
        })),
        Some(Reason::Lines(lines)) => Some(Reason::Lines(RefusedLines {
            count: lines.count.saturating_add(1),
            first: lines.first,
        })),
        Some(Reason::Input(misfit)) => Some(Reason::Input(misfit)),
    }
}
