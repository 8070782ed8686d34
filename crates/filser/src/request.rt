//! Requests: what the words of a command line ask for.
ghost use Rattle.std.specs.Prelude.{◌≡◌, map, option_map};
ghost use Rattle.filser.specs.Common.{image_named, new_named, sources_named};

use crate::{ExportTask, ImportTask, SalvageTask, Task};
use imagefile::Form;
use spec_image::layout::Layout;

/// What the words of a command line ask for. An image is named by its path.
#[derive(Debug, Drop, PartialEq, Eq)]
pub enum Request<'a> {
    /// No subcommand: serve the input on a fresh volume that isn't saved.
    Fresh,
    /// `init`: make this image, with this number of blocks, in this form, with a volume of this layout.
    Init(&'a str, u32, Form, Layout),
    /// Do this on this image, which has this form.
    Work(&'a str, Form, Task),
    /// `convert`: write the contents of the first image, which has this form, to a new one of the other form.
    Convert(&'a str, &'a str, Form),
    /// `migrate`: give the volume of this image, which has this form, layout 2.
    Migrate(&'a str, Form),
    /// `import`: make files on this image, which has this form, from files of the host.
    Import(&'a str, Form, ImportTask<'a>),
    /// `export`: write files of this image, which has this form, to new files of the host.
    Export(&'a str, Form, ExportTask<'a>),
    /// `salvage`: write the files that are whole on this image, which has this form, to new files of the host.
    Salvage(&'a str, Form, SalvageTask<'a>),
}

impl<'a> Request<'a> {
    /// Returns the path of the image that the request names, if it names one; of two images, that of the existing one.
    pub fn image(&self) -> Option<&'a str>
        ensures { option_map (λ path. path.now) result ≡ image_named self.now }
    {
        match self {
            Request::Fresh => None,
            Request::Init(path, _, _, _) | Request::Work(path, _, _) => Some(*path),
            Request::Convert(path, _, _) | Request::Migrate(path, _) => Some(*path),
            Request::Import(path, _, _) | Request::Export(path, _, _) => Some(*path),
            Request::Salvage(path, _, _) => Some(*path),
        }
    }

    /// Returns the path of the new image that the request names beside an existing one.
    pub fn new_image(&self) -> Option<&'a str>
        ensures { option_map (λ path. path.now) result ≡ new_named self.now }
    {
        match self {
            Request::Convert(_, new, _) => Some(*new),
            _ => None,
        }
    }

    /// Returns the paths of the files to import that the request names.
    pub fn sources(&self) -> &[&'a str]
        ensures { map (λ path. path.now) result.now ≡ sources_named self.now }
    {
        match self {
            Request::Import(_, _, task) => &task.paths,
            _ => &[],
        }
    }
}
