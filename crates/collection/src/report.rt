//! What people are told on the standard error.
use std::fmt::{self, Display, Formatter};
use std::io::{self, Write};

/// A path as it is shown in a line: each character on which a terminal might act is a question mark.
#[derive(Clone, Copy)]
struct Shown<'a>(&'a str);

impl Display for Shown<'_> {
    fn fmt<W: fmt::Write>(&self, f: &mut Formatter<W>) -> fmt::Result {
        for c in self.0.chars() {
            if c.is_control() || matches!(c, '\u{202a}'..='\u{202e}' | '\u{2066}'..='\u{2069}') {
                f.write_char('?')?;
            } else {
                f.write_char(c)?;
            }
        }
        Ok(())
    }
}

/// Tells people something about a file of the host, on the standard error. What can't be written there is left out.
pub(crate) fn report<E: Write, T: Display>(errors: &mut E, path: &str, what: &T) {
    let _ = writeln!(errors, "filser: {}: {what}", Shown(path));
}

/// Tells people that the moment of the last change of a file of the host couldn't be set, if it couldn't.
pub(crate) fn report_undated<E: Write>(errors: &mut E, path: &str, undated: Option<io::Error>) {
    if let Some(error) = undated {
        report(errors, path, &format_args!("its date isn't set: {error}"));
    }
}

/// Tells people that another file of the host was put under the name of this one.
pub(crate) fn report_collision<E: Write>(errors: &mut E, path: &str, other: &str) {
    report(
        errors,
        path,
        &format_args!("{} has the same name", Shown(other)),
    );
}
