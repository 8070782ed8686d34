//! The styles of the list of a directory.

/// How the list of a directory is printed.
#[derive(Clone, Copy, Debug, PartialEq, Eq)]
pub enum Style {
    /// As DIRECTORY prints it: a line for each file, in columns, and a line with the totals.
    Columns,
    /// As a table: a line for each file, with tabs between its fields, and nothing else.
    Table,
}
