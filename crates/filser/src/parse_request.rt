//! The command line, read as a request.
ghost use Rattle.std.specs.Prelude.{◌≡◌, ◌≢◌, List, ℕ, [], map, codes, IfOk, MatchOption, IsErrOf, Err, ◌↔◌, Some};
ghost use Rattle.std.specs.Prelude.{None, Option, IfSome, IfNone, IsTrue};
ghost use Rattle.clap.specs.Words.{all_of, found_of, rows_of, subcommand_of, subcommand_rows_of, fault_of, kind_of};
ghost use Rattle.clap.specs.declared.error.Error.{Error as ClapError};
ghost use Rattle.clap.specs.declared.error.kind.ErrorKind.TheVariants.{OutOfMemory, ValueValidation};
ghost use Rattle.arguments.specs.CommandLine.{command_line};
ghost use Rattle.filser.specs.Common.{Asks, IsAsked, IsAt, IsNamedFile, AsksFor, HasOwned, HasOwner, IsExisting};
ghost use Rattle.filser.specs.Common.{IsExportTask, IsImportTask, IsOneEncoding, LacksOwned, IsListedPlace, IsStyle};
ghost use Rattle.filser.specs.Common.{IsTask, HasForm, HasLayout, HasText, HasDate, HasNumber, IsFaultIn, IsMistaken};
ghost use Rattle.filser.specs.Common.{IsUsage, IsWrong, NamesDate, IsEncoding, NamesEncoding, IsDateNumber, LacksDate};
ghost use Rattle.filser.specs.Common.{NamesFile, NamesNoDate, NamesOwner, SaysDate, InRange, IsAskedSearch};
ghost use Rattle.filser.specs.Common.{IsSalvageTask};
ghost use Rattle.words36.specs.declared.moment.Moment.{Moment as Moments};
ghost use Rattle.imagefile.specs.declared.form.Form.{Form as Forms};
ghost use Rattle.spec_image.specs.declared.layout.Layout.{Layout as Layouts};
ghost use Rattle.filser.specs.declared.task.NamedFile.{NamedFile as NamedFiles};
ghost use Rattle.filser.specs.declared.task.SalvageTask.{SalvageTask as SalvageTasks};
ghost use Rattle.filser.specs.declared.task.Task.{Task as Tasks};
ghost use Rattle.spec_language.specs.declared.encoding.Encoding.{Encoding as Encodings};
ghost use Rattle.collection.specs.declared.task.ExportTask.{ExportTask as ExportTasks};
ghost use Rattle.collection.specs.declared.task.ImportTask.{ImportTask as ImportTasks};
ghost use Rattle.salvage.specs.declared.search.Search.{Search as Searches};
ghost use Rattle.filser.specs.declared.request.Request.{Request as Asked};
ghost use Rattle.filser.specs.declared.error.RequestError.TheVariants.{Usage, BadArgument};
ghost use Rattle.filser.specs.declared.error.WrongArgument.{WrongArgument as WrongArguments};
ghost use Rattle.filser.specs.declared.error.WrongArgument.TheVariants as wrong;

use crate::{
    ExportTask, ImportTask, NamedFile, Request, RequestError, SalvageTask, Task, WrongArgument,
};
use arguments::command_line;
use clap::error::ErrorKind;
use clap::{ArgMatches, Error};
use commands::{Encoding, Existing, Style, date_named, file_named, owner_named};
use imagefile::Form;
use salvage::Search;
use spec_image::layout::Layout;
use std::alloc::{AllocError, Global};
use std::num::IntErrorKind;
use words36::{FileName, Moment, Ppn};

/// The last date of the calendar, which has fifteen bits.
const LAST_DATE: u32 = 32767;

/// Returns what the words of a command line ask for; the first is the program's name. Numbers are decimal.
///
/// # Errors
///
/// `Usage` if `clap` refuses the words, or they ask for help or the version; `BadArgument` if `clap` accepts them and
/// they make no request, with the argument at fault; `NoMemory` if an allocation was refused. A date is a text for
/// `clap`, yet a number past the last date is `Usage`.
pub fn request<'a>(alloc: Global, words: &'a [&'a str]) -> Result<Request<'a>, RequestError<'a>>
    ensures asked { IfOk result (λ r. Asks (subcommand_of command_line (map (λ w. w.now) words.entry.now)) r) }
    ensures range { IfOk result InRange }
    ensures taken { IfOk result (λ _. fault_of command_line (map (λ w. w.now) words.entry.now) ≡ []) }
    ensures usage { (e : ClapError) → IsErrOf result (Usage e)
        → IsUsage (fault_of command_line (map (λ w. w.now) words.entry.now))
        (subcommand_of command_line (map (λ w. w.now) words.entry.now)) e }
    ensures bad { (wrong : Option WrongArguments) → IsErrOf result (BadArgument wrong)
        → (fault_of command_line (map (λ w. w.now) words.entry.now) ≡ [])
        × IsMistaken (subcommand_of command_line (map (λ w. w.now) words.entry.now)) wrong
        × ((r : Asked) → Asks (subcommand_of command_line (map (λ w. w.now) words.entry.now)) r → ⊥) }
{
    let Ok(command) = command_line(alloc) else {
        return Err(RequestError::NoMemory);
    };
    let matches = match command.try_get_matches_from(words) {
        Ok(matches) => matches,
        Err(error) => return Err(refusal(error)),
    };
    match matched(alloc, &matches) {
        Ok(Some(request)) => Ok(request),
        Ok(None) => Err(unmatched(alloc, &matches)),
        Err(_) => Err(RequestError::NoMemory),
    }
}

/// Returns the refusal of `clap`, unless it is a lack of memory.
fn refusal<'a>(error: Error) -> RequestError<'a>
    ensures usage { (e : ClapError) → result ≡ Usage e → (error ≡ e) × (kind_of error ≡ OutOfMemory → ⊥) }
    ensures never { (wrong : Option WrongArguments) → result ≡ BadArgument wrong → ⊥ }
{
    match error.kind() {
        ErrorKind::OutOfMemory => RequestError::NoMemory,
        _ => RequestError::Usage(error),
    }
}

/// Returns what the matches ask for.
fn matched<'a>(alloc: Global, matches: &ArgMatches<'a>) -> Result<Option<Request<'a>>, AllocError>
    ensures { IfOk result (λ found. MatchOption found ((r : Asked) → Asks (subcommand_rows_of matches.entry.now) r
        → ⊥) (λ r. Asks (subcommand_rows_of matches.entry.now) r)) }
{
    match matches.subcommand() {
        Some((name, inner)) => subcommand(alloc, name, inner),
        None => Ok(Some(Request::Fresh)),
    }
}

/// Returns what a subcommand with its matches asks for.
fn subcommand<'a>(
    alloc: Global,
    name: &'a str,
    matches: &ArgMatches<'a>,
) -> Result<Option<Request<'a>>, AllocError>
    ensures { IfOk result (λ found. MatchOption found ((r : Asked)
        → IsAsked name.entry.now (rows_of (found_of matches.entry.now)) r → ⊥)
        (IsAsked name.entry.now (rows_of (found_of matches.entry.now)))) }
{
    match name {
        "import" => import(alloc, matches),
        _ => Ok(other_than_import(name, matches)),
    }
}

/// Returns what `import` with its matches asks for.
fn import<'a>(alloc: Global, matches: &ArgMatches<'a>) -> Result<Option<Request<'a>>, AllocError>
    ensures { IfOk result (λ found. MatchOption found ((r : Asked)
        → IsAsked (codes "import") (rows_of (found_of matches.entry.now)) r → ⊥)
        (IsAsked (codes "import") (rows_of (found_of matches.entry.now)))) }
{
    match texts(matches, "FILE") {
        Some(paths) => Ok(import_of(matches, paths.to_vec(alloc)?)),
        None => Ok(None),
    }
}

/// Returns what `import` with its matches asks for, if these are its files.
fn import_of<'a>(matches: &ArgMatches<'a>, paths: Vec<&'a str>) -> Option<Request<'a>>
    requires { all_of (codes "FILE") (rows_of (found_of matches.now)) ≡ Some (map (λ p. p.now) paths.items) }
    ensures { MatchOption result ((r : Asked)
        → IsAsked (codes "import") (rows_of (found_of matches.entry.now)) r → ⊥)
        (IsAsked (codes "import") (rows_of (found_of matches.entry.now))) }
{
    let path = text(matches, "IMAGE")?;
    let form = form(matches)?;
    let Some(task) = import_task(matches, paths) else {
        return None;
    };
    Some(Request::Import(path, form, task))
}

/// Returns the task of `import` on these files.
fn import_task<'a>(matches: &ArgMatches<'a>, paths: Vec<&'a str>) -> Option<ImportTask<'a>>
    requires { all_of (codes "FILE") (rows_of (found_of matches.now)) ≡ Some (map (λ p. p.now) paths.items) }
    ensures { MatchOption result ((t : ImportTasks) → IsImportTask (rows_of (found_of matches.entry.now)) t → ⊥)
        (IsImportTask (rows_of (found_of matches.entry.now))) }
{
    let owner = directory(matches)?;
    let encoding = one_encoding(matches)?;
    let moment = moment(matches)?;
    Some(ImportTask {
        owner,
        paths,
        encoding,
        moment,
        dated: given(matches, "dates"),
        shortens: given(matches, "shorten"),
    })
}

/// Returns what a subcommand other than `import` with its matches asks for.
fn other_than_import<'a>(name: &'a str, matches: &ArgMatches<'a>) -> Option<Request<'a>>
    requires { name.now ≢ codes "import" }
    ensures { MatchOption result ((r : Asked) → IsAsked name.entry.now (rows_of (found_of matches.entry.now)) r
        → ⊥) (IsAsked name.entry.now (rows_of (found_of matches.entry.now))) }
{
    let image = text(matches, "IMAGE")?;
    let form = form(matches)?;
    match name {
        "init" => {
            let blocks = number(matches, "BLOCKS", 64, 131072)?;
            Some(Request::Init(image, blocks, form, layout(matches)?))
        }
        "convert" => Some(Request::Convert(image, text(matches, "NEW")?, form)),
        "migrate" => Some(Request::Migrate(image, form)),
        "export" => {
            let Some(task) = export_task(matches) else {
                return None;
            };
            Some(Request::Export(image, form, task))
        }
        "salvage" => {
            let Some(task) = salvage_task(matches) else {
                return None;
            };
            Some(Request::Salvage(image, form, task))
        }
        _ => Some(Request::Work(image, form, task(name, matches)?)),
    }
}

/// The task of `export` and of `salvage`.
fn export_task<'a>(matches: &ArgMatches<'a>) -> Option<ExportTask<'a>>
    ensures { MatchOption result ((t : ExportTasks) → IsExportTask (rows_of (found_of matches.entry.now)) t → ⊥)
        (IsExportTask (rows_of (found_of matches.entry.now))) }
{
    let folder = text(matches, "FOLDER")?;
    let owner = place(matches)?;
    let encoding = one_encoding(matches)?;
    Some(ExportTask {
        folder,
        owner,
        encoding,
        lists: given(matches, "list"),
    })
}

/// Returns the task of `salvage`.
fn salvage_task<'a>(matches: &ArgMatches<'a>) -> Option<SalvageTask<'a>>
    ensures { MatchOption result ((t : SalvageTasks) → IsSalvageTask (rows_of (found_of matches.entry.now)) t → ⊥)
        (IsSalvageTask (rows_of (found_of matches.entry.now))) }
{
    let search = search_asked(matches)?;
    let Some(export) = export_task(matches) else {
        return None;
    };
    Some(SalvageTask { export, search })
}

/// Returns which blocks are searched for files that no directory names, if at most one flag chooses them.
fn search_asked(matches: &ArgMatches) -> Option<Search>
    ensures { MatchOption result ((s : Searches) → IsAskedSearch (rows_of (found_of matches.now)) s → ⊥)
        (IsAskedSearch (rows_of (found_of matches.now))) }
{
    match (given(matches, "named"), given(matches, "all")) {
        (true, true) => None,
        (true, false) => Some(Search::Named),
        (false, true) => Some(Search::Every),
        (false, false) => Some(Search::Used),
    }
}

/// Returns the form of the image.
fn form(matches: &ArgMatches) -> Option<Form>
    ensures { MatchOption result ((f : Forms) → HasForm (rows_of (found_of matches.now)) f → ⊥)
        (HasForm (rows_of (found_of matches.now))) }
{
    match number(matches, "form", 1, 2)? {
        1 => Some(Form::Wide),
        _ => Some(Form::Packed),
    }
}

/// Returns the layout of a new volume.
fn layout(matches: &ArgMatches) -> Option<Layout>
    ensures { MatchOption result ((l : Layouts) → HasLayout (rows_of (found_of matches.now)) l → ⊥)
        (HasLayout (rows_of (found_of matches.now))) }
{
    match number(matches, "layout", 1, 2)? {
        1 => Some(Layout::One),
        _ => Some(Layout::Two),
    }
}

/// Returns the task of a subcommand.
fn task(name: &str, matches: &ArgMatches) -> Option<Task>
    ensures { MatchOption result ((t : Tasks) → IsTask name.now (rows_of (found_of matches.now)) t → ⊥)
        (IsTask name.now (rows_of (found_of matches.now))) }
{
    match name {
        "run" => Some(Task::Run(moment(matches)?)),
        "calls" => Some(Task::Calls(moment(matches)?)),
        "wire" => Some(Task::Wire),
        "put" => {
            let file = named(matches)?;
            Some(Task::Put(file, existing(matches), moment(matches)?))
        }
        "get" => Some(Task::Get(named(matches)?, moment(matches)?)),
        "delete" => {
            let (owner, name) = owned(matches)?;
            Some(Task::Delete(owner, name))
        }
        "list" => Some(Task::List(place(matches)?, style(matches))),
        "check" => Some(Task::Check),
        _ => None,
    }
}

/// Returns the moment that is given for what is written.
fn moment(matches: &ArgMatches) -> Option<Moment>
    ensures { MatchOption result ((at : Moments) → IsAt (rows_of (found_of matches.now)) at → ⊥)
        (IsAt (rows_of (found_of matches.now))) }
{
    let date = date(matches)?;
    let minute = number(matches, "minute", 0, 1439)?;
    Moment::new(date, minute).ok()
}

/// Returns the date that is given for what is written.
fn date(matches: &ArgMatches) -> Option<u32>
    ensures { MatchOption result ((n : ℕ) → HasDate (rows_of (found_of matches.now)) n → ⊥)
        (HasDate (rows_of (found_of matches.now))) }
{
    date_of_text(text(matches, "date")?)
}

/// Returns the date that a text states: a number, or the text of a day.
fn date_of_text(text: &str) -> Option<u32>
    ensures { MatchOption result ((n : ℕ) → SaysDate text.now n → ⊥) (SaysDate text.now) }
{
    match date_number(text) {
        Some(number) => Some(number),
        None => date_named(text.as_bytes()),
    }
}

/// Returns the date that a text states by its number.
fn date_number(text: &str) -> Option<u32>
    ensures { MatchOption result ((n : ℕ) → IsDateNumber text.now n → ⊥) (IsDateNumber text.now) }
{
    match text.parse::<u32>() {
        Ok(number) if number <= LAST_DATE => Some(number),
        Ok(_) => None,
        Err(_) => None,
    }
}

/// Returns the directory to list, or `None` for all of them.
fn place(matches: &ArgMatches) -> Option<Option<Ppn>>
    ensures { MatchOption result ((p : Option ℕ) → IsListedPlace (rows_of (found_of matches.now)) p → ⊥)
        (IsListedPlace (rows_of (found_of matches.now))) }
{
    match text(matches, "PPN") {
        Some(text) => Some(Some(owner_named(text.as_bytes())?)),
        None => Some(None),
    }
}

/// Returns the text of the directory, if it isn't a valid one.
fn wrong_owner<'a>(matches: &ArgMatches<'a>) -> Option<&'a str>
    ensures some { IfSome result (λ text. IsWrong (rows_of (found_of matches.now)) (wrong.Owner text)) }
    ensures none { IfNone result (NamesOwner (rows_of (found_of matches.now))) }
{
    let text = text(matches, "PPN")?;
    match owner_named(text.as_bytes()) {
        Some(_) => None,
        None => Some(text),
    }
}

/// Returns the text of the file, if it isn't a valid name.
fn wrong_name<'a>(matches: &ArgMatches<'a>) -> Option<&'a str>
    ensures some { IfSome result (λ text. IsWrong (rows_of (found_of matches.now)) (wrong.Name text)) }
    ensures none { IfNone result (NamesFile (rows_of (found_of matches.now))) }
{
    let text = text(matches, "NAME")?;
    match file_named(text.as_bytes()) {
        Some(_) => None,
        None => Some(text),
    }
}

/// Returns the text of the date, if it isn't a valid one.
fn wrong_date<'a>(matches: &ArgMatches<'a>) -> Option<&'a str>
    ensures some { IfSome result (λ text. IsWrong (rows_of (found_of matches.now)) (wrong.Date text)) }
    ensures none { IfNone result (NamesDate (rows_of (found_of matches.now))) }
{
    let text = text(matches, "date")?;
    match date_of_text(text) {
        Some(_) => None,
        None => Some(text),
    }
}

/// Returns the first argument that isn't valid.
fn wrong_argument<'a>(matches: &ArgMatches<'a>) -> Option<WrongArgument<'a>>
    ensures { IsFaultIn (rows_of (found_of matches.now)) result }
{
    if let Some(text) = wrong_owner(matches) {
        return Some(WrongArgument::Owner(text));
    }
    if let Some(text) = wrong_name(matches) {
        return Some(WrongArgument::Name(text));
    }
    if let Some((one, other)) = two_encodings(matches) {
        return Some(WrongArgument::Encodings(one, other));
    }
    if both_given(matches, "named", "all") {
        return Some(WrongArgument::Searches);
    }
    if let Some(text) = wrong_date(matches) {
        return Some(WrongArgument::Date(text));
    }
    None
}

/// Returns whether a text is a number, in any range.
fn is_number(text: &str) -> bool {
    match text.parse::<i64>() {
        Ok(_) => true,
        Err(error) => matches!(
            error.kind(),
            IntErrorKind::PosOverflow | IntErrorKind::NegOverflow
        ),
    }
}

/// Returns the refusal of a number that isn't a date.
fn past_dates(alloc: Global, text: &str) -> Result<Error, AllocError>
    ensures { IfOk result (λ error. kind_of error ≡ ValueValidation) }
{
    let message = format!(in alloc;
        "invalid value '{text}' for '--date <DATE>': {text} is not in 0..={LAST_DATE}"
    )?;
    let mut command = command_line(alloc)?;
    command.error(ErrorKind::ValueValidation, message.as_str())
}

/// Returns why the matches of a subcommand make no request.
fn fault_in<'a>(alloc: Global, matches: &ArgMatches<'a>) -> RequestError<'a>
    ensures usage { (e : ClapError) → result ≡ Usage e → (kind_of e ≡ ValueValidation)
        × LacksDate (rows_of (found_of matches.now)) }
    ensures bad { (wrong : Option WrongArguments) → result ≡ BadArgument wrong
        → IsFaultIn (rows_of (found_of matches.now)) wrong }
{
    if let Some(text) = wrong_date(matches)
        && is_number(text)
    {
        return match past_dates(alloc, text) {
            Ok(error) => RequestError::Usage(error),
            Err(_) => RequestError::NoMemory,
        };
    }
    RequestError::BadArgument(wrong_argument(matches))
}

/// Returns why matches make no request.
fn unmatched<'a>(alloc: Global, matches: &ArgMatches<'a>) -> RequestError<'a>
    ensures usage { (e : ClapError) → result ≡ Usage e → (kind_of e ≡ ValueValidation)
        × NamesNoDate (subcommand_rows_of matches.now) }
    ensures bad { (wrong : Option WrongArguments) → result ≡ BadArgument wrong
        → IsMistaken (subcommand_rows_of matches.now) wrong }
{
    match matches.subcommand() {
        Some((_, inner)) => fault_in(alloc, inner),
        None => RequestError::BadArgument(None),
    }
}

/// Returns how lists are printed: as a table if that is requested.
fn style(matches: &ArgMatches) -> Style
    ensures { IsStyle (rows_of (found_of matches.now)) result }
{
    match text(matches, "tsv") {
        Some("true") => Style::Table,
        _ => Style::Columns,
    }
}

/// Returns the directory that is given.
fn directory(matches: &ArgMatches) -> Option<Ppn>
    ensures { MatchOption result ((owner : ℕ) → HasOwner (rows_of (found_of matches.now)) owner → ⊥)
        (HasOwner (rows_of (found_of matches.now))) }
{
    owner_named(text(matches, "PPN")?.as_bytes())
}

/// Returns the owner and the name that are given.
fn owned(matches: &ArgMatches) -> Option<(Ppn, FileName)>
    ensures { MatchOption result (LacksOwned (rows_of (found_of matches.now)))
        (λ file. HasOwned (rows_of (found_of matches.now)) file.0 file.1) }
{
    let owner = directory(matches)?;
    let name = file_named(text(matches, "NAME")?.as_bytes())?;
    Some((owner, name))
}

/// Returns the file that is named, with the encoding of its bytes.
fn named(matches: &ArgMatches) -> Option<NamedFile>
    ensures { MatchOption result ((f : NamedFiles) → IsNamedFile (rows_of (found_of matches.now)) f → ⊥)
        (IsNamedFile (rows_of (found_of matches.now))) }
{
    let (owner, name) = owned(matches)?;
    let encoding = encoding(matches)?;
    Some(NamedFile {
        owner,
        name,
        encoding,
    })
}

/// Returns the encoding of the file's bytes: words, or bytes of eight bits, if one of these is requested, and not both.
fn encoding(matches: &ArgMatches) -> Option<Encoding>
    ensures { MatchOption result ((e : Encodings) → IsEncoding (rows_of (found_of matches.now)) e → ⊥)
        (IsEncoding (rows_of (found_of matches.now))) }
{
    if both_given(matches, "bytes", "words") {
        return None;
    }
    if given(matches, "words") {
        return Some(Encoding::Words);
    }
    if given(matches, "bytes") {
        return Some(Encoding::Octets);
    }
    Some(Encoding::Characters)
}

/// Returns what becomes of an existing file with the name of one that is put.
fn existing(matches: &ArgMatches) -> Existing
    ensures { IsExisting (rows_of (found_of matches.now)) result }
{
    if given(matches, "new") {
        Existing::Refuse
    } else {
        Existing::Replace
    }
}

/// Returns the encoding of files' bytes, if at most one flag chooses it.
fn one_encoding(matches: &ArgMatches) -> Option<Option<Encoding>>
    ensures { MatchOption result ((e : Option Encodings) → IsOneEncoding (rows_of (found_of matches.now)) e → ⊥)
        (IsOneEncoding (rows_of (found_of matches.now))) }
{
    match two_encodings(matches) {
        Some(_) => None,
        None => Some(first_encoding(matches)),
    }
}

/// Returns an encoding that is requested.
fn first_encoding(matches: &ArgMatches) -> Option<Encoding>
    ensures some { IfSome result (AsksFor (rows_of (found_of matches.now))) }
    ensures none { IfNone result ((e : Encodings) → AsksFor (rows_of (found_of matches.now)) e → ⊥) }
{
    if given(matches, "text") {
        return Some(Encoding::Characters);
    }
    if given(matches, "words") {
        return Some(Encoding::Words);
    }
    if given(matches, "bytes") {
        return Some(Encoding::Octets);
    }
    None
}

/// Returns two encodings that are requested at once.
fn two_encodings(matches: &ArgMatches) -> Option<(Encoding, Encoding)>
    ensures some { IfSome result (λ both. IsWrong (rows_of (found_of matches.now)) (wrong.Encodings both.0 both.1)) }
    ensures none { IfNone result (NamesEncoding (rows_of (found_of matches.now))) }
{
    if both_given(matches, "text", "words") {
        return Some((Encoding::Characters, Encoding::Words));
    }
    if both_given(matches, "text", "bytes") {
        return Some((Encoding::Characters, Encoding::Octets));
    }
    if both_given(matches, "words", "bytes") {
        return Some((Encoding::Words, Encoding::Octets));
    }
    None
}

/// Returns whether two flags are given.
fn both_given(matches: &ArgMatches, one: &str, other: &str) -> bool
    ensures { IsTrue result ↔ HasText (rows_of (found_of matches.now)) one.now (codes "true")
        × HasText (rows_of (found_of matches.now)) other.now (codes "true") }
{
    if given(matches, one) {
        given(matches, other)
    } else {
        false
    }
}

/// Returns whether a flag is given.
fn given(matches: &ArgMatches, id: &str) -> bool
    ensures { IsTrue result ↔ HasText (rows_of (found_of matches.now)) id.now (codes "true") }
{
    match text(matches, id) {
        Some("true") => true,
        _ => false,
    }
}

/// Returns the text of an argument.
fn text<'a>(matches: &ArgMatches<'a>, id: &str) -> Option<&'a str>
    ensures { MatchOption result ((t : List ℕ) → HasText (rows_of (found_of matches.now)) id.now t
        → ⊥) (λ t. HasText (rows_of (found_of matches.now)) id.now t.now) }
{
    matches.get_str(id)
}

/// Returns all texts of an argument, in their order.
fn texts<'b, 'a>(matches: &'b ArgMatches<'a>, id: &str) -> Option<&'b [&'a str]>
    ensures { MatchOption result (all_of id.now (rows_of (found_of matches.entry.now)) ≡ None)
        (λ s. all_of id.now (rows_of (found_of matches.entry.now)) ≡ Some (map (λ t. t.now) s.now)) }
{
    matches.get_strs(id)
}

/// Returns the number of an argument, if it is in its range.
fn number(matches: &ArgMatches, id: &str, least: u32, most: u32) -> Option<u32>
    ensures { MatchOption result ((n : ℕ) → HasNumber (rows_of (found_of matches.now)) id.now least most n
        → ⊥) (HasNumber (rows_of (found_of matches.now)) id.now least most) }
{
    match matches.get_one::<u32>(id) {
        Some(n) if least <= n && n <= most => Some(n),
        _ => None,
    }
}
