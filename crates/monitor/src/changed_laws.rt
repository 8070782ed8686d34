//! Laws of the areas of core that calls change.
ghost use Rattle.std.specs.Prelude.{◌≡◌, ◌≤◌, ◌+◌, ◌-◌, ◌∷◌, ℕ, true, List, [], Some, length};
ghost use Rattle.std.specs.List.{AllByRecursion};
ghost use Rattle.words36.specs.declared.moment.Moment.{Moment};
ghost use Rattle.spec_machine.specs.Common.{first_free, ring_in, SpecInput, Channel, SpecJob, State, channel_at};
ghost use Rattle.spec_machine.specs.Common.{job_at};
ghost use Rattle.spec_machine.specs.Common.{is_buffered, base, current, target, Serving, Answers, step};
ghost use Rattle.spec_image.specs.Common.{Pack};
ghost use Rattle.spec_machine.specs.declared.call.Call.{Call};
ghost use Rattle.spec_machine.specs.declared.call.Call.TheVariants.{Lookup, In};
ghost use Rattle.spec_machine.specs.declared.call.Event.TheVariants.{Call as Calls};
ghost use Rattle.spec_machine.specs.declared.call.Reply.{Reply};
ghost use Rattle.usercore.specs.Common.{words_at};
ghost use Rattle.monitor.specs.Common.{IsPart, ChangesJob, areas_of};

/// Proves that a call changes no words of cores except those of its own job's core that lie in its areas; nor does the
/// service in a run, where memory may be lacking.
pub fn calls_change_their_areas()
    ensures stepped { (s : State) (n : ℕ) (job : SpecJob) → job_at s n ≡ Some job
        → (pack : Pack) (serial : ℕ) (call : Call) (moment : Moment)
        → ChangesJob n job (areas_of job call) s (step pack serial s (Calls n call moment)).1 }
    ensures answered { (s : State) (n : ℕ) (job : SpecJob) → job_at s n ≡ Some job
        → (pack : Pack) (call : Call) (moment : Moment) (reply : Reply) (t : State)
        → Answers pack (Serving s) (Calls n call moment) reply (Serving t)
        → ChangesJob n job (areas_of job call) s t }
{}

/// Proves that the areas of a call are parts of core, and that they are these words: of a LOOKUP, the last three of its
/// four; of an IN from a ring, the header's, the current buffer's own, and the next buffer's; or, if a ring of two is
/// set up first, the job word that names the place of new rings, both buffers' and the header's.
pub fn areas_have_these_words()
    ensures parts { (job : SpecJob) (call : Call) → AllByRecursion (IsPart job.core) (areas_of job call) }
    ensures looked_up { (job : SpecJob) (number : ℕ) (c : Channel) → channel_at job number ≡ Some c
        → (e : ℕ) → e + 4 ≤ length job.core → areas_of job (Lookup number e) ≡ words_at (e + 1) 3 ∷ [] }
    ensures next { (job : SpecJob) (number : ℕ) (c : Channel) → channel_at job number ≡ Some c
        → (a : ℕ) (i : SpecInput) → c.input ≡ Some i → is_buffered c.mode ≡ true
        → (ready : List ℕ) → ring_in job c ≡ Some ready → (c.input_header ≡ 0 → ⊥)
        → (current job.core c.input_header ≡ 0 → ⊥) → areas_of job (In number a)
        ≡ words_at c.input_header 3 ∷ words_at (current job.core c.input_header) 1
        ∷ words_at (target job.core c.input_header - 1) 0o203 ∷ [] }
    ensures first { (job : SpecJob) (number : ℕ) (c : Channel) → channel_at job number ≡ Some c
        → (a : ℕ) (i : SpecInput) → c.input ≡ Some i → is_buffered c.mode ≡ true
        → (ready : List ℕ) → ring_in job c ≡ Some ready → (c.input_header ≡ 0 → ⊥)
        → current job.core c.input_header ≡ 0 → areas_of job (In number a)
        ≡ words_at first_free 1 ∷ words_at (base job.core) 0o406 ∷ words_at c.input_header 3 ∷ [] }
{}
