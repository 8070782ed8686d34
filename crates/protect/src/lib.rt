//! Who may do what with a file, and in a directory. The layer promises:
//!
//! 1. A protection is three octal digits: the owner's, his project's, and that of all others; the owner is the one who
//!    has the directory's project-programmer number. `[1,2]` may do everything.
//! 2. A file's digit forbids: 7 everything, 6 everything except executing it, and so on down to 0, which forbids
//!    nothing. `right` returns that, for any set of acts. (`allowed`)
//! 3. The sets of acts are nested, and each is what the digit's name says. (`acts_are_nested`)
//! 4. A directory's digit allows: it is a sum of 4 to look names up, 2 to make new ones, and 1 for nothing. `dir_right`
//!    returns that. (`allowed`)
//!
//! Nothing here is refused, and nothing takes memory. The bits of a channel's status and the codes by which calls are
//! refused are passed on from the crates below.
#![tactic(auto)]

mod rights;

pub use rights::{DirectoryAct, acts_are_nested, dir_right, right};
pub use spec_image::ErrorCode;
pub use spec_machine::{Act, IoStatus};
