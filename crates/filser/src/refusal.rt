//! Refusals: why a run ends before it serves a line.
ghost use Rattle.std.specs.Prelude.{◌≡◌, ◌⊎◌};
ghost use Rattle.filser.specs.Common.{message_text, refusal_text, refusal_code, start_text, status_code};
ghost use Rattle.filser.specs.declared.status.Status.TheVariants.{BadImage, Fault};

use crate::{Message, Status};
use volume::VolumeError;

/// Why a run ends before a line of its input is served.
#[derive(Clone, Copy, Debug, PartialEq, Eq)]
pub enum Refusal {
    /// The file of a new image exists already.
    Exists,
    /// The image can't be served, or its file can't be opened or made (`Device`).
    Start(VolumeError),
}

impl Refusal {
    /// Returns the status of a run that ends with this refusal.
    pub fn status(self) -> Status
        ensures code { status_code result ≡ refusal_code self }
        ensures kind { (result ≡ BadImage) ⊎ (result ≡ Fault) }
    {
        match self {
            Refusal::Start(VolumeError::Device | VolumeError::Failed) => Status::Fault,
            _ => Status::BadImage,
        }
    }

    /// Returns the line that is then printed, without its end.
    pub fn message(self) -> Message
        ensures { message_text result ≡ refusal_text self }
    {
        match self {
            Refusal::Exists => Message::Plain("?Image exists"),
            Refusal::Start(error) => start_message(error),
        }
    }
}

/// Returns the line that is printed for the refusal of a start.
fn start_message(error: VolumeError) -> Message
    ensures { message_text result ≡ start_text error }
{
    match error {
        VolumeError::NotVolume => Message::Plain("?Not a volume"),
        VolumeError::BadHome => Message::Plain("?Bad home blocks"),
        VolumeError::BadLog => Message::Plain("?Bad log"),
        VolumeError::BadDirectory(block) => Message::Numbered("?Bad directory block ", block, ""),
        VolumeError::BadRetrieval(block) => Message::Numbered("?Bad retrieval block ", block, ""),
        VolumeError::BlockTwice(block) => Message::Numbered("?Block ", block, " reached twice"),
        VolumeError::TableWrong(block) => Message::Numbered("?Bad table block ", block, ""),
        VolumeError::BadData(block) => Message::Numbered("?Bad data block ", block, ""),
        VolumeError::NoMemory => Message::Plain("?No memory"),
        VolumeError::Device | VolumeError::Failed => Message::Plain("?Device fault"),
    }
}
