//! Laws of lines, texts, inputs and errands: contracts of functions that do nothing.
ghost use Rattle.std.specs.Prelude.{◌≡◌, ◌↔◌, ◌<◌, ℕ, List, Option, Some, None, length};
ghost use Rattle.words36.specs.declared.moment.Moment.{Moment};
ghost use Rattle.spec_language.specs.Common.{Line, Means, AreWords, Act, SaysEvent, Served, Spoken};
ghost use Rattle.spec_machine.specs.Common.{longest, State};
ghost use Rattle.spec_image.specs.Common.{Pack};
ghost use Rattle.spec_machine.specs.declared.call.Event.{Event};
ghost use Rattle.spec_language.specs.declared.command.Command.{Command};
ghost use Rattle.spec_language.specs.declared.encoding.Encoding.{Encoding};
ghost use Rattle.commands.specs.Common.{ComesBack, IsExport, DeliveriesKeepFiles, DeliveriesMakeFiles};
ghost use Rattle.commands.specs.Common.{ErrandsShowFiles, ExportsShowFiles, ImportsMakeFiles, IsTooLong};
ghost use Rattle.commands.specs.Common.{IsServedTranscript};
ghost use Rattle.commands.specs.declared.export_file.Exported.{Exported};
ghost use Rattle.commands.specs.declared.language.Language.TheVariants.{Commands, Events};

use crate::service::FileService;

/// States that a line has one meaning: one command, or none.
pub fn lines_have_one_meaning()
    ensures { (line : Line) (meant said : Option Command) → Means line meant → Means line said → said ≡ meant }
{}

/// States that the text of lines, of a session or of a call script, and what is counted of them, is a function of the
/// lines, the state and the moment, if no act met a lack of memory or a fault of the disk.
pub fn served_texts_are_functions()
    ensures session { (pack : Pack) (moment : Moment) (lines : List Line) (user : Option ℕ) (s t u : State)
        (acts others : List Act) (one other : Spoken) (x y : Option ℕ)
        → IsServedTranscript Commands moment user lines acts one x → Served pack s acts t
        → IsServedTranscript Commands moment user lines others other y → Served pack s others u → one ≡ other }
    ensures script { (pack : Pack) (moment : Moment) (lines : List Line) (user : Option ℕ) (s t u : State)
        (acts others : List Act) (one other : Spoken) (x y : Option ℕ)
        → IsServedTranscript Events moment user lines acts one x → Served pack s acts t
        → IsServedTranscript Events moment user lines others other y → Served pack s others u → one ≡ other }
{}

/// States that a line of a call script has one event at a moment, or none.
pub fn orders_have_one_reading()
    ensures { (text : List ℕ) (moment : Moment) (said other : Option Event) → SaysEvent text moment said
        → SaysEvent text moment other → said ≡ other }
{}

/// States that an input that has words is too long exactly if they are more than a file can hold.
pub fn long_inputs_fit_no_file()
    ensures { (encoding : Encoding) (bytes words : List ℕ) → AreWords encoding bytes (Some words)
        → IsTooLong encoding bytes ↔ (longest < length words) }
{}

/// States that a file that is taken out without an encoding comes back exactly: its bytes spell the words that were
/// read, and no others.
pub fn exports_come_back()
    ensures { (mode : ℕ) (words : List ℕ) (exported : Exported) → IsExport None mode words exported
        → ComesBack words exported }
{}

/// States what an errand of job 1 comes to, if the service has kept its promises up to its end: a file that was put has
/// the words that the input spells, or it was refused and nothing has changed; if it was put only if its name is free,
/// no file had the name, and the same holds for one that was imported; a file that was got was written as the words of
/// the version that was found, or refused; and one that was exported is what these words are taken out as, or it was
/// refused.
pub fn errands_reach_files<S: FileService>()
    ensures put { DeliveriesKeepFiles S.machine }
    ensures new { DeliveriesMakeFiles S.machine }
    ensures imported { ImportsMakeFiles S.machine }
    ensures got { ErrandsShowFiles S.machine }
    ensures exported { ExportsShowFiles S.machine }
{}
