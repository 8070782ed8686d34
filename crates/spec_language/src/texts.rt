//! Laws about what lines mean and print.
ghost use Rattle.std.specs.Prelude.{◌≡◌, ℕ, List, Option};
ghost use Rattle.words36.specs.declared.moment.Moment.{Moment};
ghost use Rattle.spec_machine.specs.declared.call.Event.{Event};
ghost use Rattle.spec_language.specs.declared.command.Command.{Command};
ghost use Rattle.spec_language.specs.Commands.{IsCommand};
ghost use Rattle.spec_language.specs.Plans.{Act};
ghost use Rattle.spec_machine.specs.Common.{State, Serving};
ghost use Rattle.spec_language.specs.Lines.{Line};
ghost use Rattle.spec_image.specs.Common.{Pack};
ghost use Rattle.spec_language.specs.Scripts.{IsEvent};
ghost use Rattle.spec_language.specs.Transcripts.{IsTranscript, Scripts, Served, Went};
ghost use Rattle.spec_language.specs.Texts.{Spoken};

/// Proves that a line means one thing at most: it has at most one reading in the grammar of sessions, and at most one
/// in that of call scripts.
pub fn lines_have_one_reading()
    ensures session { (text : List ℕ) (one other : Command) → IsCommand text one → IsCommand text other → one ≡ other }
    ensures script { (text : List ℕ) (moment : Moment) (one other : Event) → IsEvent text moment one
        → IsEvent text moment other → one ≡ other }
{}

/// Proves that acts in which memory sufficed and the disk had no fault are acts of the service.
pub fn served_acts_are_acts()
    ensures { (pack : Pack) (s t : State) (acts : List Act) → Served pack s acts t
        → Went pack (Serving s) acts (Serving t) }
{}

/// Proves that the text of lines, and what is counted of them, is a function of the lines, the state and the moment, if
/// memory sufficed and the disk had no fault in each act: whatever serials were chosen, the same is printed.
pub fn texts_are_functions()
    ensures session { (pack : Pack) (moment : Moment) (lines : List Line) (user : Option ℕ) (s t u : State)
        (acts others : List Act) (one other : Spoken) (x y : Option ℕ)
        → IsTranscript moment user lines acts one x → Served pack s acts t
        → IsTranscript moment user lines others other y → Served pack s others u → one ≡ other }
    ensures script { (pack : Pack) (moment : Moment) (lines : List Line) (s t u : State) (acts others : List Act)
        (one other : Spoken)
        → Scripts moment lines acts one → Served pack s acts t → Scripts moment lines others other
        → Served pack s others u → one ≡ other }
{}
