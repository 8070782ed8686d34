//! The standard streams that lead to no file of the words.
ghost use Rattle.std.specs.Prelude.{◌⊎◌, IsTrue, IsFalse, All, Any, drop, map};
ghost use Rattle.filser.specs.Common.{BarsErrors, BarsOutput, SparesErrors, SparesOutput};

use crate::Host;
use crate::streams::stream_at;

/// The streams that may be written to by a run whose words make no request: those that lead to no file of the
/// words. Such words may still name an image, and it isn't known which of them does.
#[derive(Clone, Copy, Debug, PartialEq, Eq)]
pub(crate) struct FreeStreams {
    /// The standard output.
    pub(crate) output: bool,
    /// The standard error.
    pub(crate) errors: bool,
}

impl FreeStreams {
    /// Both streams.
    const BOTH: FreeStreams = FreeStreams {
        output: true,
        errors: true,
    };

    /// Returns the streams that lead to no file of these words, the first of which is the program's name: all of them.
    /// The host is asked for each.
    pub(crate) fn of_words<H: Host>(host: &H, words: &[&str]) -> Self
        ensures output { IsTrue result.output
            → All (SparesOutput (H.facts host.now)) (drop 1 (map (λ w. w.now) words.now)) }
        ensures errors { IsTrue result.errors
            → All (SparesErrors (H.facts host.now)) (drop 1 (map (λ w. w.now) words.now)) }
        ensures no_output { IsFalse result.output
            → Any (BarsOutput (H.facts host.now)) (drop 1 (map (λ w. w.now) words.now)) }
        ensures no_errors { IsFalse result.errors
            → Any (BarsErrors (H.facts host.now)) (drop 1 (map (λ w. w.now) words.now)) }
    {
        match words {
            [] => FreeStreams::BOTH,
            [_, names @ ..] => FreeStreams::of_names(host, names),
        }
    }

    /// Returns the streams that lead to no file of these names.
    pub(crate) fn of_names<H: Host>(host: &H, names: &[&str]) -> Self
        ensures output { IsTrue result.output
            → All (SparesOutput (H.facts host.now)) (map (λ n. n.now) names.now) }
        ensures errors { IsTrue result.errors
            → All (SparesErrors (H.facts host.now)) (map (λ n. n.now) names.now) }
        ensures no_output { IsFalse result.output
            → Any (BarsOutput (H.facts host.now)) (map (λ n. n.now) names.now) }
        ensures no_errors { IsFalse result.errors
            → Any (BarsErrors (H.facts host.now)) (map (λ n. n.now) names.now) }
    {
        let mut free = FreeStreams::BOTH;
        for name in names {
            free = free.besides(host, name);
        }
        free
    }

    /// Returns those of these streams that don't lead to the file of a name.
    fn besides<H: Host>(self, host: &H, name: &str) -> Self
        ensures output { IsTrue result.output → IsTrue self.output × SparesOutput (H.facts host.now) name.now }
        ensures errors { IsTrue result.errors → IsTrue self.errors × SparesErrors (H.facts host.now) name.now }
        ensures no_output { IsFalse result.output → IsFalse self.output ⊎ BarsOutput (H.facts host.now) name.now }
        ensures no_errors { IsFalse result.errors → IsFalse self.errors ⊎ BarsErrors (H.facts host.now) name.now }
    {
        match stream_at(host, name) {
            Some(stream) => FreeStreams {
                output: self.output && !stream.forbids_output(),
                errors: self.errors && !stream.forbids_errors(),
            },
            None => self,
        }
    }
}
