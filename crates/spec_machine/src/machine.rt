//! Laws of the file machine.
ghost use Rattle.std.specs.Prelude.{◌≡◌, ◌≢◌, ◌<◌, ◌≤◌, ◌+◌, ◌++◌, ◌∷◌, [], ◌⊎◌, ℕ, List, length, pos, slice_index};
ghost use Rattle.std.specs.Prelude.{true, false, Some, None};
ghost use Rattle.words36.specs.declared.moment.Moment.{Moment};
ghost use Rattle.spec_machine.specs.declared.call.Event.{Event};
ghost use Rattle.spec_machine.specs.declared.call.Event.TheVariants.{Call as Calls};
ghost use Rattle.spec_machine.specs.declared.call.Call.TheVariants.{Lookup, Rename, In, DeleteDir, Quota};
ghost use Rattle.spec_machine.specs.declared.call.Reply.{Reply};
ghost use Rattle.spec_machine.specs.declared.call.Reply.TheVariants.{Done, Refused, Failed};
ghost use Rattle.blockdisk.specs.Common.{Contents, MayLeave, LeavesOnly};
ghost use Rattle.spec_machine.specs.Charges.{charge, quota_of, is_limited};
ghost use Rattle.spec_machine.specs.Crashes.{StandsForState, StandsForEither, RunsOn};
ghost use Rattle.spec_image.specs.Common.{File, Files, Directory, Place, get, SpecVersion, file_at, with_protection};
ghost use Rattle.spec_image.specs.Common.{without_serials, Pack, splice, length_after, block_start};
ghost use Rattle.spec_machine.specs.PinnedVersions.{SpareAll, FoundBy, MovesWordsOf};
ghost use Rattle.spec_machine.specs.Jobs.{Channel, SpecInput, SpecJob, State, channel_at, job_at};
ghost use Rattle.spec_machine.specs.Lookup.{place_at};
ghost use Rattle.spec_machine.specs.Rename.{deletes_at, protection_at};
ghost use Rattle.spec_machine.specs.Room.{booked, room};
ghost use Rattle.spec_machine.specs.Runs.{Service, Serving, Broken, Answers, IsFresh, IsStart, AnswersAll, Steps};
ghost use Rattle.spec_machine.specs.Runs.{StepsAll};
ghost use Rattle.spec_machine.specs.Sessions.{list};
ghost use Rattle.spec_machine.specs.Sound.{holds_at, IsSound};
ghost use Rattle.spec_machine.specs.Step.{step, job_of};
ghost use Rattle.spec_machine.specs.Undone.{undone};

use blockdisk::Disk;

/// Proves that the words that are put at a block of a body are found there, and that all other words stay: zeros fill
/// the gap if the body ended before that block.
pub fn splices_put_words()
    ensures length { (body : List ℕ) (block : ℕ) (words : List ℕ) → length (splice body block words)
        ≡ length_after (length body) block (length words) }
    ensures inside { (body : List ℕ) (block : ℕ) (words : List ℕ) (k : ℕ) → k < length words
        → slice_index (splice body block words) (block_start block + k) ≡ slice_index words k }
    ensures outside { (body : List ℕ) (block : ℕ) (words : List ℕ) (i : ℕ) → (i < block_start block)
        ⊎ (block_start block + length words ≤ i)
        → slice_index (splice body block words) i ≡ slice_index body i }
{}

/// Proves that no event of another job changes a job's record.
pub fn jobs_are_apart()
    ensures { (pack : Pack) (serial : ℕ) (s : State) (m : ℕ) (event : Event) → m ≢ job_of event
        → job_at (step pack serial s event).1 m ≡ job_at s m }
{}

/// Proves that reading holds still: its own job's record alone determines what an IN answers and leaves; and over every
/// run of events, whatever other jobs do, an IN moves the words of the version that the channel's LOOKUP found.
pub fn reading_holds_still()
    ensures alike { (pack : Pack) (serial other : ℕ) (s t : State) (n ch a : ℕ) (moment : Moment)
        → job_at s n ≡ job_at t n
        → ((step pack serial s (Calls n (In ch a) moment)).0 ≡ (step pack other t (Calls n (In ch a) moment)).0)
        × (job_at (step pack serial s (Calls n (In ch a) moment)).1 n
        ≡ job_at (step pack other t (Calls n (In ch a) moment)).1 n) }
    ensures found { (pack : Pack) (s s' t u : State) (n ch e a : ℕ) (first last : Moment) (events : List Event)
        (replies : List Reply)
        → Answers pack (Serving s) (Calls n (Lookup ch e) first) Done (Serving s')
        → AnswersAll pack (Serving s') events replies (Serving t) → SpareAll n ch events
        → Answers pack (Serving t) (Calls n (In ch a) last) Done (Serving u) → (v : SpecVersion) × FoundBy s n e v
        × MovesWordsOf t u n ch a v }
{}

/// Proves that a run continues by one event.
pub fn runs_go_on()
    ensures { (pack : Pack) (old mid new : Service) (events : List Event) (replies : List Reply) (event : Event)
        (reply : Reply)
        → AnswersAll pack old events replies mid → Answers pack mid event reply new
        → AnswersAll pack old (events ++ event ∷ []) (replies ++ reply ∷ []) new }
{}

/// Proves that an event that isn't done changes almost nothing: a refusal's code is written into the block that the
/// call named, and a status into the channel that couldn't continue. Files and room are unchanged.
pub fn undone_changes_nothing()
    ensures left { (pack : Pack) (serial : ℕ) (s : State) (event : Event) → (step pack serial s event).0 ≢ Done
        → (step pack serial s event).1 ≡ undone s event (step pack serial s event).0 }
    ensures files { (pack : Pack) (serial : ℕ) (s : State) (event : Event) → (step pack serial s event).0 ≢ Done
        → (step pack serial s event).1.files ≡ s.files }
    ensures room { (pack : Pack) (serial : ℕ) (s : State) (event : Event) → (step pack serial s event).0 ≢ Done
        → room pack (step pack serial s event).1 ≡ room pack s }
{}

/// Proves that every run from a start comes only to sound states: a name has at most one output side, and a serial at
/// most one version.
pub fn states_are_sound()
    ensures started { (pack : Pack) (found : Files File) (s t : State) (events : List Event) (replies : List Reply)
        → IsStart found s → AnswersAll pack (Serving s) events replies (Serving t) → IsSound t }
    ensures on { (pack : Pack) (serial : ℕ) (s : State) (event : Event) → IsFresh s serial → IsSound s
        → IsSound (step pack serial s event).1 }
{}

/// Proves that a call that is done and takes room leaves room: if more is booked after it than before, the room is a
/// natural number, at least 0.
pub fn room_is_not_overdrawn()
    ensures { (pack : Pack) (serial : ℕ) (s : State) (event : Event) → IsFresh s serial → IsSound s
        → (step pack serial s event).0 ≡ Done
        → booked s < booked (step pack serial s event).1 → (k : ℕ) × (room pack (step pack serial s event).1 ≡ pos k) }
{}

/// Proves that no call except QUOTA takes a directory above its quota: what is charged stays within the quota from
/// before the call, and no other call changes a quota.
pub fn quotas_are_not_overdrawn()
    ensures within { (pack : Pack) (s t : State) (event : Event) (reply : Reply) (ppn : ℕ) → IsSound s
        → Steps pack s event reply t → is_limited s ppn ≡ true → charge s ppn ≤ quota_of s ppn
        → charge t ppn ≤ quota_of s ppn }
    ensures quota { (pack : Pack) (s t : State) (event : Event) (reply : Reply) (ppn : ℕ)
        (d new : Directory SpecVersion)
        → ((n e : ℕ) (moment : Moment) → event ≢ Calls n (Quota e) moment) → Steps pack s event reply t
        → get s.files ppn ≡ Some d → get t.files ppn ≡ Some new → new.quota ≡ d.quota }
{}

/// Proves that a reader of a version keeps it when others rename, delete and remove: a RENAME closes only the input
/// side of its own channel, the removal of a directory closes none, and a refused RENAME leaves all files.
pub fn readers_keep_versions()
    ensures renamed { (pack : Pack) (serial : ℕ) (s : State) (n ch e : ℕ) (moment : Moment) (m k : ℕ)
        → (m ≢ n) ⊎ (k ≢ ch)
        → holds_at (step pack serial s (Calls n (Rename ch e) moment)).1 m k ≡ holds_at s m k }
    ensures removed { (pack : Pack) (serial : ℕ) (s : State) (n e : ℕ) (moment : Moment) (m k : ℕ)
        → holds_at (step pack serial s (Calls n (DeleteDir e) moment)).1 m k ≡ holds_at s m k }
    ensures refused { (pack : Pack) (serial : ℕ) (s : State) (n ch e : ℕ) (moment : Moment) (code : ℕ)
        → (step pack serial s (Calls n (Rename ch e) moment)).0 ≡ Refused code
        → (step pack serial s (Calls n (Rename ch e) moment)).1.files ≡ s.files }
{}

/// Proves that a RENAME that is done moves one version and no other: the version is then at the new place with the
/// protection given, or nowhere, and all other places have what they had.
pub fn renames_move_one_version()
    ensures moved { (pack : Pack) (serial : ℕ) (s : State) (n ch e : ℕ) (moment : Moment) (job : SpecJob) (c : Channel)
        (i : SpecInput) → job_at s n ≡ Some job → channel_at job ch ≡ Some c → c.input ≡ Some i
        → (v : SpecVersion) → (step pack serial s (Calls n (Rename ch e) moment)).0 ≡ Done
        → file_at s.files i.place ≡ Some v → deletes_at job e ≡ false
        → file_at (step pack serial s (Calls n (Rename ch e) moment)).1.files (place_at job e)
        ≡ Some (with_protection v (protection_at job e)) }
    ensures gone { (pack : Pack) (serial : ℕ) (s : State) (n ch e : ℕ) (moment : Moment) (job : SpecJob) (c : Channel)
        (i : SpecInput) → job_at s n ≡ Some job → channel_at job ch ≡ Some c → c.input ≡ Some i
        → (step pack serial s (Calls n (Rename ch e) moment)).0 ≡ Done → deletes_at job e ≡ true
        → file_at (step pack serial s (Calls n (Rename ch e) moment)).1.files i.place ≡ None }
    ensures left { (pack : Pack) (serial : ℕ) (s : State) (n ch e : ℕ) (moment : Moment) (job : SpecJob) (c : Channel)
        (i : SpecInput) → job_at s n ≡ Some job → channel_at job ch ≡ Some c → c.input ≡ Some i
        → (v : SpecVersion) → (step pack serial s (Calls n (Rename ch e) moment)).0 ≡ Done
        → file_at s.files i.place ≡ Some v → deletes_at job e ≡ false → i.place ≢ place_at job e
        → file_at (step pack serial s (Calls n (Rename ch e) moment)).1.files i.place ≡ None }
    ensures untouched { (pack : Pack) (serial : ℕ) (s : State) (n ch e : ℕ) (moment : Moment) (job : SpecJob)
        (c : Channel) (i : SpecInput) → job_at s n ≡ Some job → channel_at job ch ≡ Some c → c.input ≡ Some i
        → (v : SpecVersion) → (step pack serial s (Calls n (Rename ch e) moment)).0 ≡ Done
        → file_at s.files i.place ≡ Some v → (q : Place) → q ≢ i.place → q ≢ place_at job e
        → file_at (step pack serial s (Calls n (Rename ch e) moment)).1.files q ≡ file_at s.files q }
{}

/// Proves that an IN never changes the room.
pub fn reading_takes_no_room()
    ensures { (pack : Pack) (serial : ℕ) (s : State) (n ch a : ℕ) (moment : Moment)
        → room pack (step pack serial s (Calls n (In ch a) moment)).1 ≡ room pack s }
{}

/// Proves that neither the reply to an event nor the files without serials show which serial the event chose.
pub fn serials_are_not_seen()
    ensures files { (pack : Pack) (a b : ℕ) (s : State) (event : Event)
        → without_serials (step pack a s event).1.files ≡ without_serials (step pack b s event).1.files }
    ensures reply { (pack : Pack) (a b : ℕ) (s : State) (event : Event)
        → (step pack a s event).0 ≡ (step pack b s event).0 }
{}

/// Proves that neither the replies of a whole run nor its end show serials: from one state, whatever serials were
/// chosen, the replies to the same events are the same, and so are the files, the lists of directories and the room.
pub fn runs_tell_no_serials()
    ensures { (pack : Pack) (s t u : State) (events : List Event) (one other : List Reply)
        → StepsAll pack s events one t → StepsAll pack s events other u
        → (one ≡ other) × (without_serials t.files ≡ without_serials u.files)
        × ((n owner : ℕ) → list t n owner ≡ list u n owner) × (room pack t ≡ room pack u) }
{}

/// Proves that the moments of a run continue by one event, from one state of a disk to another, with what a crash
/// leaves between them: the files before the event, or those after it if its answer is one that may change files.
pub fn moments_go_on<D: Disk>(old: &D, new: &D)
    ensures start { (pack : Pack) (s : State)
        → ((c : Contents) → MayLeave (D.state old.now) c → StandsForState pack s c)
        → RunsOn pack (D.state old.now) (D.state old.now).clock (Serving s) [] [] (Serving s) }
    ensures served { (pack : Pack) (s : State) (event : Event) (reply : Reply)
        → LeavesOnly (D.state old.now) (D.state new.now) (StandsForEither pack s event reply)
        → (after : State) (t : ℕ) (first : Service) (events : List Event) (replies : List Reply)
        → RunsOn pack (D.state old.now) t first events replies (Serving s)
        → Answers pack (Serving s) event reply (Serving after)
        → ((c : Contents) → MayLeave (D.state new.now) c → StandsForState pack after c)
        → RunsOn pack (D.state new.now) t first (events ++ event ∷ []) (replies ++ reply ∷ []) (Serving after) }
    ensures failed { (pack : Pack) (s : State) (event : Event) (reply : Reply)
        → LeavesOnly (D.state old.now) (D.state new.now) (StandsForEither pack s event reply)
        → (t : ℕ) (first : Service) (events : List Event) (replies : List Reply)
        → RunsOn pack (D.state old.now) t first events replies (Serving s)
        → Answers pack (Serving s) event reply Broken
        → RunsOn pack (D.state new.now) t first (events ++ event ∷ []) (replies ++ reply ∷ []) Broken }
    ensures stays { (pack : Pack) (t : ℕ) (first : Service) (events : List Event) (replies : List Reply) (event : Event)
        → RunsOn pack (D.state old.now) t first events replies Broken
        → RunsOn pack (D.state old.now) t first (events ++ event ∷ []) (replies ++ Failed ∷ []) Broken }
    ensures is_run { (pack : Pack) (t : ℕ) (first last : Service) (events : List Event) (replies : List Reply)
        → RunsOn pack (D.state old.now) t first events replies last → AnswersAll pack first events replies last }
{}
