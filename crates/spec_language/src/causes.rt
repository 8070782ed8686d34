//! Laws about the plan of a line, and why a line is refused.
ghost use Rattle.std.specs.Prelude.{◌≡◌, ◌⊎◌, ℕ, List, Some};
ghost use Rattle.words36.specs.declared.moment.Moment.{Moment};
ghost use Rattle.spec_language.specs.Causes.{GoesUntilRefused, SaysOk, PrintsAtEnd, EndsSo, SaysSo, IsRefusedAt};
ghost use Rattle.spec_language.specs.Causes.{TellingsHaveCauses};
ghost use Rattle.spec_language.specs.Errands.{get_plan, put_plan};
ghost use Rattle.spec_language.specs.Plans.{Act, RunsPlan, line_plan, ok, read_plan};
ghost use Rattle.spec_language.specs.Texts.{Spoken, file_said};
ghost use Rattle.spec_language.specs.declared.command.Command.{Command};
ghost use Rattle.spec_language.specs.declared.command.Spec.{Spec};
ghost use Rattle.spec_language.specs.declared.encoding.Encoding.{Encoding};

/// Proves that the plan of a line, of a file that is read or of an errand continues while each reply is the one wanted,
/// and comes to its end; after the first other reply it is refused, and prints that reply.
pub fn plans_go_on()
    ensures lines { (moment : Moment) (me : ℕ) (command : Command)
        → GoesUntilRefused moment (EndsSo moment me command) (line_plan moment me command) }
    ensures reads { (moment : Moment) (encoding : Encoding) (spec : Spec)
        → GoesUntilRefused moment (PrintsAtEnd moment encoding) (read_plan moment encoding spec) }
    ensures puts { (moment : Moment) (me : ℕ) (encoding : Encoding) (spec : Spec) (words : List ℕ)
        → GoesUntilRefused moment (SaysOk moment) (put_plan moment me encoding spec (Some words)) }
    ensures gets { (moment : Moment) (me : ℕ) (encoding : Encoding) (spec : Spec)
        → GoesUntilRefused moment (PrintsAtEnd moment encoding) (get_plan moment me encoding spec) }
{}

/// Proves that a line is refused only at a reply that it didn't want, and prints the text of the first one; and that a
/// file that was read is refused only if its bytes were asked for and no bytes have its words.
pub fn refusals_have_causes()
    ensures lines { (moment : Moment) (me : ℕ) (command : Command) (acts : List Act) (said : Spoken)
        → RunsPlan (line_plan moment me command) acts said → SaysSo me command said ⊎ IsRefusedAt moment acts said }
    ensures reads { (moment : Moment) (encoding : Encoding) (spec : Spec) (acts : List Act) (said : Spoken)
        → RunsPlan (read_plan moment encoding spec) acts said
        → ((words : List ℕ) × (said ≡ file_said encoding words)) ⊎ IsRefusedAt moment acts said }
    ensures puts { (moment : Moment) (me : ℕ) (encoding : Encoding) (spec : Spec) (words : List ℕ) (acts : List Act)
        (said : Spoken) → RunsPlan (put_plan moment me encoding spec (Some words)) acts said
        → (said ≡ ok) ⊎ IsRefusedAt moment acts said }
    ensures gets { (moment : Moment) (me : ℕ) (encoding : Encoding) (spec : Spec) (acts : List Act) (said : Spoken)
        → RunsPlan (get_plan moment me encoding spec) acts said
        → ((words : List ℕ) × (said ≡ file_said encoding words)) ⊎ IsRefusedAt moment acts said }
    ensures tells { TellingsHaveCauses }
{}
