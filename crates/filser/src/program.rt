//! A whole run of the program, by the words of its command line.
ghost use Rattle.std.specs.Prelude.{◌≡◌, ◌≢◌, ◌⊎◌, ◌≤◌, ℕ, List, [], map, true, Option, IfSome};
ghost use Rattle.std.specs.Prelude.{MatchOption, IsFalse, IsSome, IsTrue, None, All, drop};
ghost use Rattle.std.specs.Io.KnownBytes.{Keeps};
ghost use Rattle.clap.specs.Words.{fault_of, kind_of, subcommand_of};
ghost use Rattle.clap.specs.declared.error.Error.{Error as Errors};
ghost use Rattle.arguments.specs.CommandLine.{command_line};
ghost use Rattle.imagefile.specs.Common.{assumed_in};
ghost use Rattle.filser.specs.Common.{IsExplained, AreMistaken, AskToSee, EndsUnasked, AsksForHelp, forbids_errors};
ghost use Rattle.filser.specs.Common.{IsMadePlain, IsOnNew, Asks, InRange, IsHandled, IsRequestRun, WasRun};
ghost use Rattle.filser.specs.Common.{AreReportsSpared, HoldsOfNamed, SparesErrors, SparesOutput, acts_of};
ghost use Rattle.filser.specs.Common.{sources_named, status_code};
ghost use Rattle.filser.specs.declared.request.Request.{Request as Asked};
ghost use Rattle.filser.specs.declared.error.WrongArgument.{WrongArgument as WrongArguments};
ghost use Rattle.filser.specs.declared.error.RequestError.TheVariants.{BadArgument, NoMemory, Usage};
ghost use Rattle.filser.specs.declared.status.Status.{Status as Statuses};
ghost use Rattle.filser.specs.declared.status.Status.TheVariants.{Done, BadArguments, Fault};

use crate::convert::{Conversion, convert_image};
use crate::escaped::EscapedLines;
use crate::export_image::export_image;
use crate::fault::{report, report_fault, report_no_memory};
use crate::free_streams::FreeStreams;
use crate::host::Shelf;
use crate::image::{NamedImage, NewVolume, make_image};
use crate::import_image::import_image;
use crate::led_image::led_image;
use crate::lines::LineReader;
use crate::migrate_image::migrate_image;
use crate::outcome::Outcome;
use crate::output::{OutputFault, OutputWriter};
use crate::salvage_image::salvage_image;
use crate::serve_image::{say, serve_fresh, serve_image};
use crate::streams::Streams;
use crate::{
    Disks, Host, ImageFault, Leaves, MakingLeave, MissingStreams, NewDisks, Request, RequestError,
    Run, Seen, Status, Telling, WrongArgument, request,
};
use clap::Error;
use std::alloc::Global;
use std::io::{self, Read, Write};

/// Performs a whole run of the program: reads the words, the first of which is the program's name, does what they ask
/// for with the files of the host, and returns the exit status, 0 to 4, with what is left of the images. Texts are
/// printed to `writer`. Reported to `errors` are: wrong arguments; why the host refused a call on an image; that the
/// date is past the dates of the volume; which lines of the input were refused; why the input can't be a file; the line
/// in which it broke off; and, if `telling` requires it, the progress of a conversion.
///
/// Of the files that aren't images it reads those that an import names, each once, and makes those that an export or a
/// salvage has lines for, in folders below the one that it names; it reads and makes no others. All of these calls are
/// on the record of the permit that it hands back.
///
/// If there are several faults, the first of these is met: the arguments, a stream that leads to a file to import, a
/// new file that exists already, a file that can't be opened or made or that another process has, its size, the start,
/// the input.
pub fn work<H: Host, R: Read, W: Write, E: Write>(
    host: &H,
    alloc: Global,
    words: &[&str],
    missing: &MissingStreams,
    telling: Telling,
    leaves: Leaves,
    streams: &mut Streams<LineReader<R>, OutputWriter<W>, E>,
) -> Run
    ensures few { result.code ≤ 4 }
    ensures mistaken { AreMistaken (fault_of command_line (map (λ w. w.now) words.now))
        → (result.code ≡ 2) ⊎ (result.code ≡ 4) }
    ensures shown { AskToSee (fault_of command_line (map (λ w. w.now) words.now))
        → (result.code ≡ 0) ⊎ (result.code ≡ 4) }
    ensures asked { (r : Asked) → Asks (subcommand_of command_line (map (λ w. w.now) words.now)) r
        → fault_of command_line (map (λ w. w.now) words.now) ≡ [] → result.code ≢ 2 }
    // What was done with the images, what was printed, and the status of that, unless the output has failed.
    ensures ran { (status : Statuses) × (full : Option (List ℕ))
        × ((result.code ≡ status_code status) ⊎ ((result.code ≡ 4) × IsSome streams.new.writer.fault))
        × Keeps full (W.contents streams.new.writer.writer)
        × WasRun (H.facts host.now) (⟦<Run as Seen>⟧.views) missing.now (record {
          opening = leaves.image;
          making = leaves.new;
          u = assumed_in leaves.image.supposed;
          v = assumed_in leaves.new.supposed;
          before = acts_of leaves.files;
          image = result.image;
          new = result.new;
          memory = result.memory;
          after = acts_of result.files;
        }) (fault_of command_line (map (λ w. w.now) words.now))
        (subcommand_of command_line (map (λ w. w.now) words.now)) (drop 1 (map (λ w. w.now) words.now))
        (R.remaining streams.old.reader.reader)
        (R.remaining streams.new.reader.reader) (W.contents streams.old.writer.writer) full status }
    // If the output has failed, or wasn't flushed, the status says so.
    ensures written { (result.code ≡ 4)
        ⊎ ((streams.new.writer.fault ≡ None) × (streams.new.writer.is_flushed ≡ true)) }
    // Nothing that was reported lands in an image that is named.
    ensures spared { AreReportsSpared (H.facts host.now)
        (subcommand_of command_line (map (λ w. w.now) words.now)) (drop 1 (map (λ w. w.now) words.now))
        (E.contents streams.old.errors) (E.contents streams.new.errors) }
{
    let outcome = answer(host, alloc, words, missing, telling, leaves, streams);
    // Its fault is remembered.
    let _ = streams.writer.flush();
    report_streams(
        host,
        words,
        &streams.reader,
        &streams.writer,
        &mut streams.errors,
    );
    Run {
        code: exit_code(outcome.status, streams.writer.fault()),
        image: outcome.image,
        new: outcome.new,
        memory: outcome.memory,
        files: outcome.files,
    }
}

/// Reports why the input broke off, and why the output failed, if they did, unless that would land in a file that the
/// words name.
fn report_streams<H: Host, R: Read, W: Write, E: Write>(
    host: &H,
    words: &[&str],
    reader: &LineReader<R>,
    writer: &OutputWriter<W>,
    errors: &mut E,
)
    ensures { (E.contents errors.new ≡ E.contents errors.old)
        ⊎ All (SparesErrors (H.facts host.now)) (drop 1 (map (λ w. w.now) words.now)) }
{
    let (broken, failed) = (reader.fault(), writer.fault());
    if broken.is_none() && failed.is_none() {
        return;
    }
    if !FreeStreams::of_words(host, words).errors {
        return;
    }
    if let Some((line, fault)) = broken {
        report_input(errors, words, line, &fault);
    }
    if let Some(fault) = failed {
        report(errors, "standard output", &fault);
    }
}

/// Reports why the input broke off, and in which line, if the input has lines.
fn report_input<E: Write>(errors: &mut E, words: &[&str], line: u64, fault: &io::Error) {
    if has_lines(words) {
        report(
            errors,
            "standard input",
            &format_args!("line {line}: {fault}"),
        );
    } else {
        report(errors, "standard input", fault);
    }
}

/// Returns whether the input of a run with these words has lines. That of `wire` has records.
fn has_lines(words: &[&str]) -> bool {
    match words {
        [_, command, ..] => *command != "wire",
        _ => true,
    }
}

/// Returns the exit status of a run, by its status and by why the output has failed, if it has.
fn exit_code(status: Status, fault: Option<OutputFault>) -> u8
    ensures { MatchOption fault (result ≡ status_code status) (λ why. result ≡ 4) }
{
    match fault {
        None => status.code(),
        Some(_) => Status::Fault.code(),
    }
}

/// Does what the words ask for, or reports why they make no request.
fn answer<H: Host, R: Read, W: Write, E: Write>(
    host: &H,
    alloc: Global,
    words: &[&str],
    missing: &MissingStreams,
    telling: Telling,
    leaves: Leaves,
    streams: &mut Streams<R, W, E>,
) -> Outcome
    ensures mistaken { AreMistaken (fault_of command_line (map (λ w. w.now) words.now))
        → (result.status ≡ BadArguments) ⊎ (result.status ≡ Fault) }
    ensures shown { AskToSee (fault_of command_line (map (λ w. w.now) words.now))
        → (result.status ≡ Done) ⊎ (result.status ≡ Fault) }
    ensures asked { (r : Asked) → Asks (subcommand_of command_line (map (λ w. w.now) words.now)) r
        → fault_of command_line (map (λ w. w.now) words.now) ≡ [] → result.status ≢ BadArguments }
    ensures ran { WasRun (H.facts host.now) (⟦<Run as Seen>⟧.views) missing.now (record {
      opening = leaves.image;
      making = leaves.new;
      u = assumed_in leaves.image.supposed;
      v = assumed_in leaves.new.supposed;
      before = acts_of leaves.files;
      image = result.image;
      new = result.new;
      memory = result.memory;
      after = acts_of result.files;
    }) (fault_of command_line (map (λ w. w.now) words.now))
        (subcommand_of command_line (map (λ w. w.now) words.now)) (drop 1 (map (λ w. w.now) words.now))
        (R.remaining streams.old.reader) (R.remaining streams.new.reader)
        (W.contents streams.old.writer) (W.contents streams.new.writer) result.status }
    ensures spared { AreReportsSpared (H.facts host.now)
        (subcommand_of command_line (map (λ w. w.now) words.now)) (drop 1 (map (λ w. w.now) words.now))
        (E.contents streams.old.errors) (E.contents streams.new.errors) }
{
    match request(alloc, words) {
        Ok(asked) => start(host, alloc, &asked, missing, telling, leaves, streams),
        Err(error) => {
            let free = FreeStreams::of_words(host, words);
            let status = refuse(&error, free, &mut streams.writer, &mut streams.errors);
            Outcome::without_disks(status, leaves)
        }
    }
}

/// Serves the request, unless that would print into the image or a file to import, or there is nothing to read from or
/// to print to.
fn start<H: Host, R: Read, W: Write, E: Write>(
    host: &H,
    alloc: Global,
    asked: &Request<'_>,
    missing: &MissingStreams,
    telling: Telling,
    leaves: Leaves,
    streams: &mut Streams<R, W, E>,
) -> Outcome
    requires { InRange asked.now }
    ensures serving { result.status ≢ BadArguments }
    ensures ran { IsHandled (H.facts host.now) (⟦<Run as Seen>⟧.views) missing.now (record {
      opening = leaves.image;
      making = leaves.new;
      u = assumed_in leaves.image.supposed;
      v = assumed_in leaves.new.supposed;
      before = acts_of leaves.files;
      image = result.image;
      new = result.new;
      memory = result.memory;
      after = acts_of result.files;
    }) asked.now (R.remaining streams.old.reader) (R.remaining streams.new.reader) (W.contents streams.old.writer)
        (W.contents streams.new.writer) result.status }
    ensures spared { (E.contents streams.new.errors ≡ E.contents streams.old.errors)
        ⊎ HoldsOfNamed asked.now (SparesErrors (H.facts host.now)) }
{
    let free = FreeStreams::of_names(host, asked.sources());
    if !free.output || !free.errors {
        report_source(host, asked, free, &mut streams.errors);
        return Outcome::without_disks(Status::Fault, leaves);
    }
    start_apart(host, alloc, asked, missing, telling, leaves, streams)
}

/// Serves a request with streams that lead to no file to import, unless that would print into the image, or there is
/// nothing to read from or to print to.
fn start_apart<H: Host, R: Read, W: Write, E: Write>(
    host: &H,
    alloc: Global,
    asked: &Request<'_>,
    missing: &MissingStreams,
    telling: Telling,
    leaves: Leaves,
    streams: &mut Streams<R, W, E>,
) -> Outcome
    requires range { InRange asked.now }
    requires output { All (SparesOutput (H.facts host.now)) (sources_named asked.now) }
    requires errors { All (SparesErrors (H.facts host.now)) (sources_named asked.now) }
    ensures serving { result.status ≢ BadArguments }
    ensures ran { IsHandled (H.facts host.now) (⟦<Run as Seen>⟧.views) missing.now (record {
      opening = leaves.image;
      making = leaves.new;
      u = assumed_in leaves.image.supposed;
      v = assumed_in leaves.new.supposed;
      before = acts_of leaves.files;
      image = result.image;
      new = result.new;
      memory = result.memory;
      after = acts_of result.files;
    }) asked.now (R.remaining streams.old.reader) (R.remaining streams.new.reader) (W.contents streams.old.writer)
        (W.contents streams.new.writer) result.status }
    ensures spared { (E.contents streams.new.errors ≡ E.contents streams.old.errors)
        ⊎ HoldsOfNamed asked.now (SparesErrors (H.facts host.now)) }
{
    if let Some(led) = led_image(host, asked) {
        let Streams { writer, errors, .. } = streams;
        let status = refuse_image(led.fault(), led.path, writer, errors);
        return Outcome::without_disks(status, leaves);
    }
    if missing.are_needed() {
        report_closed(&mut streams.errors);
        return Outcome::without_disks(Status::Fault, leaves);
    }
    perform(host, alloc, asked, telling, leaves, streams)
}

/// Reports that the standard output leads to a file to import, unless that would land in a file that the request names.
fn report_source<H: Host, E: Write>(
    host: &H,
    asked: &Request<'_>,
    free: FreeStreams,
    errors: &mut E,
)
    requires { IsTrue free.errors → All (SparesErrors (H.facts host.now)) (sources_named asked.now) }
    ensures { (E.contents errors.new ≡ E.contents errors.old)
        ⊎ HoldsOfNamed asked.now (SparesErrors (H.facts host.now)) }
{
    let led = led_image(host, asked);
    if free.errors && led.is_none_or(|led| !led.stream.forbids_errors()) {
        report(
            errors,
            "a file to import",
            &"the standard output of this run",
        );
    }
}

/// Reports that there is nothing to read from or to print to.
fn report_closed<E: Write>(errors: &mut E) {
    report(errors, "standard input or output", &"it is closed");
}

/// Serves the request.
fn perform<H: Host, R: Read, W: Write, E: Write>(
    host: &H,
    alloc: Global,
    asked: &Request<'_>,
    telling: Telling,
    leaves: Leaves,
    streams: &mut Streams<R, W, E>,
) -> Outcome
    requires { InRange asked.now }
    ensures serving { result.status ≢ BadArguments }
    ensures ran { IsRequestRun (H.facts host.now) (⟦<Run as Seen>⟧.views) (record {
      opening = leaves.image;
      making = leaves.new;
      u = assumed_in leaves.image.supposed;
      v = assumed_in leaves.new.supposed;
      before = acts_of leaves.files;
      image = result.image;
      new = result.new;
      memory = result.memory;
      after = acts_of result.files;
    }) asked.now (R.remaining streams.old.reader) (R.remaining streams.new.reader) (W.contents streams.old.writer)
        (W.contents streams.new.writer) result.status }
{
    match *asked {
        Request::Fresh => Outcome::of_memory(serve_fresh(alloc, streams), leaves),
        Request::Init(path, blocks, form, layout) => {
            let volume = NewVolume::new(blocks, form, layout);
            let Streams { writer, errors, .. } = streams;
            let made = init_image(host, path, &volume, leaves.new, writer, errors);
            Outcome::of_new(made, leaves.image, leaves.files)
        }
        Request::Work(path, form, task) => {
            let image = NamedImage { path, form };
            let served = serve_image(host, alloc, &image, leaves.image, task, streams);
            Outcome::of_image(served, leaves.new, leaves.files)
        }
        Request::Convert(path, new, form) => {
            let conversion = Conversion::new(path, form, new, telling);
            let Streams { writer, errors, .. } = streams;
            let Leaves { image, new, files } = leaves;
            let converted = convert_image(host, alloc, &conversion, image, new, writer, errors);
            Outcome::of_both(converted, files)
        }
        Request::Migrate(path, form) => {
            let Streams { writer, errors, .. } = streams;
            let migrated = migrate_image(host, alloc, path, form, leaves.image, writer, errors);
            Outcome::of_image(migrated, leaves.new, leaves.files)
        }
        Request::Import(path, form, ref task) => {
            let image = NamedImage { path, form };
            let Streams { writer, errors, .. } = streams;
            let mut shelf = Shelf::of(host, path, leaves.files);
            let imported = import_image(
                &mut shelf,
                alloc,
                &image,
                leaves.image,
                task,
                writer,
                errors,
            );
            Outcome::of_image(imported, leaves.new, shelf.into_permit())
        }
        Request::Export(path, form, ref task) => {
            let image = NamedImage { path, form };
            let Streams { writer, errors, .. } = streams;
            let mut shelf = Shelf::of(host, path, leaves.files);
            let exported = export_image(
                &mut shelf,
                alloc,
                &image,
                leaves.image,
                task,
                writer,
                errors,
            );
            Outcome::of_image(exported, leaves.new, shelf.into_permit())
        }
        Request::Salvage(path, form, ref task) => {
            let image = NamedImage { path, form };
            let Streams { writer, errors, .. } = streams;
            let mut shelf = Shelf::of(host, path, leaves.files);
            let saved = salvage_image(
                &mut shelf,
                alloc,
                &image,
                leaves.image,
                task,
                writer,
                errors,
            );
            Outcome::of_image(saved, leaves.new, shelf.into_permit())
        }
    }
}

/// Makes an image, or reports why it isn't made.
fn init_image<H: Host, W: Write, E: Write>(
    host: &H,
    path: &str,
    volume: &NewVolume,
    leave: MakingLeave,
    writer: &mut W,
    errors: &mut E,
) -> (Status, NewDisks)
    ensures serving { result.0 ≢ BadArguments }
    ensures ran { IsOnNew (H.facts host.now) (⟦<Run as Seen>⟧.views) path.now volume.now.form volume.now.blocks
        volume.now.layout (assumed_in leave.supposed) (W.contents writer.old) (W.contents writer.new)
        result.1 result.0 }
    ensures bits { IsMadePlain (H.facts host.now) path.now }
{
    match make_image(host, path, volume, leave) {
        Ok((disk, right)) => (Status::Done, Disks::Made(disk, right)),
        Err((fault, disks)) => (refuse_image(fault, path, writer, errors), disks),
    }
}

/// Prints why an image isn't served or made, reports the host's part in it, and returns the status. Nothing is written
/// to a stream that leads to the image.
pub(crate) fn refuse_image<W: Write, E: Write>(
    fault: ImageFault,
    path: &str,
    writer: &mut W,
    errors: &mut E,
) -> Status
    ensures serving { result ≢ BadArguments }
    ensures explained { IsExplained (W.contents writer.old) (W.contents writer.new) result fault }
    ensures untold { IfSome fault.host (λ host. forbids_errors host ≡ true
        → E.contents errors.new ≡ E.contents errors.old) }
{
    let Some(host) = fault.host else {
        return say(writer, fault.refusal);
    };
    if !host.forbids_errors() {
        report_fault(errors, path, &host);
    }
    if host.forbids_output() {
        return fault.refusal.status();
    }
    say(writer, fault.refusal)
}

/// Reports, on the streams that are free, why the words make no request.
fn refuse<W: Write, E: Write>(
    error: &RequestError<'_>,
    free: FreeStreams,
    writer: &mut W,
    errors: &mut E,
) -> Status
    ensures ends { EndsUnasked error.now result }
    ensures unprinted { ((wrong : Option WrongArguments) × (error.now ≡ BadArgument wrong)) ⊎ (error.now ≡ NoMemory)
        → W.contents writer.new ≡ W.contents writer.old }
    ensures mistake { (usage : Errors) → error.now ≡ Usage usage → (AsksForHelp (kind_of usage) → ⊥)
        → W.contents writer.new ≡ W.contents writer.old }
    ensures spared { IsFalse free.output → W.contents writer.new ≡ W.contents writer.old }
    ensures untold { IsFalse free.errors → E.contents errors.new ≡ E.contents errors.old }
{
    match error {
        RequestError::Usage(usage) => show(usage, free, writer, errors),
        RequestError::BadArgument(wrong) => {
            if free.errors {
                report_wrong(*wrong, errors);
            }
            Status::BadArguments
        }
        RequestError::NoMemory => {
            if free.errors {
                report_no_memory(errors);
            }
            Status::Fault
        }
    }
}

/// Reports which argument isn't valid.
fn report_wrong<E: Write>(wrong: Option<WrongArgument<'_>>, errors: &mut E) {
    let _ = writeln!(errors, "?Bad argument");
    if let Some(wrong) = wrong {
        let _ = writeln!(errors, "filser: {wrong}");
    }
}

/// Shows the text of `clap`: help and the version if the words ask for them, and anything else as a mistake.
fn show<W: Write, E: Write>(
    usage: &Error,
    free: FreeStreams,
    writer: &mut W,
    errors: &mut E,
) -> Status
    ensures shown { AsksForHelp (kind_of usage.now) → (result ≡ Done) ⊎ (result ≡ Fault) }
    ensures mistake { (AsksForHelp (kind_of usage.now) → ⊥) → (result ≡ BadArguments)
        × (W.contents writer.new ≡ W.contents writer.old) }
    ensures spared { IsFalse free.output → W.contents writer.new ≡ W.contents writer.old }
    ensures untold { IsFalse free.errors → E.contents errors.new ≡ E.contents errors.old }
{
    if usage.use_stderr() {
        if free.errors {
            let _ = write!(errors, "{}", EscapedLines(usage));
        }
        return Status::BadArguments;
    }
    if !free.output {
        return Status::Done;
    }
    match write!(writer, "{usage}") {
        Ok(()) => Status::Done,
        Err(_) => Status::Fault,
    }
}
