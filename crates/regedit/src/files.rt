//! A run over files: they are read whole before it, and replaced whole after it.
ghost use Rattle.std.specs.Prelude.{◌≡◌, ◌++◌, IfOk, IsOkUnless, OnOk, map, option_map, string_bytes};
ghost use Rattle.std.specs.Io.KnownBytes.{Appends};
ghost use Rattle.regedit.specs.Files.{edited_files, ending_of, files_of, goes_out, if_there, is_sourceless, lacks_text, lent, saved_text, seen, to_files, to_output, unwoven_of};
ghost use Rattle.rdl_run.specs.Beside.{MakesBeside};
ghost use Rattle.rdl_run.specs.RunTexts.{AreRun};
ghost use Rattle.regedit.specs.OfOutput.{IsEndingOf, IsLeft};
ghost use Rattle.rdl_run.specs.Turns.{IsOpen};
ghost use Rattle.rdl_run.specs.declared.status.RunFault.{RunFault};

use crate::paths::{Asked, Paths};
use crate::source::Source;
use command_line::streams::{is_standard_input, is_standard_output};
use explainer::explainer::{Explainer, MOST};
use rdl_explain::explain::Names;
use rdl_run::counted::CountedWriter;
use rdl_run::edited::{Edited, Unwoven};
use rdl_run::output::write_counted;
use rdl_run::run::{MOST_BYTES, Options, Texts, run_observed};
use rdl_run::saved::Saved;
use rdl_run::status::{RunFault, Status};
use rdl_warn::warn::{Outlet, warnings};
use std::alloc::{AllocError, Global};
use std::fs::{File, Files};
use std::io::{Read, Write};
use whole_files::noted::{NotedReader, NotedWriter};
use whole_files::obstacle::{Obstacle, Reason, obstacle_of_inputs, obstacle_of_output};
use whole_files::output::{Output, OutputFault, write_whole};

/// Why a run stopped, and at which file, where it is one.
#[derive(Debug, Drop)]
pub(crate) struct Stop<'a> {
    pub(crate) fault: RunFault,
    pub(crate) obstacle: Option<Obstacle<'a>>,
}

impl<'a> Stop<'a> {
    pub(crate) fn at(fault: RunFault, obstacle: Obstacle<'a>) -> Stop<'a> {
        Stop {
            fault,
            obstacle: Some(obstacle),
        }
    }

    fn for_memory() -> Stop<'a> {
        Stop {
            fault: RunFault::Memory,
            obstacle: None,
        }
    }
}

/// A text, and the path at which it goes out.
#[derive(Debug, Drop)]
pub(crate) struct Filed<'a> {
    path: &'a str,
    text: String,
}

/// How a run ended.
#[derive(Clone, Copy, Debug, Drop)]
pub(crate) struct Ending {
    pub(crate) status: Status,
    /// Why the edited text isn't there, where it is asked for and isn't.
    pub(crate) unwoven: Option<Unwoven>,
    /// Whether the session goes out without the source text that it is to keep.
    pub(crate) is_sourceless: bool,
}

impl Ending {
    ghost use Rattle.std.specs.Prelude.{◌≡◌};
    ghost use Rattle.regedit.specs.Files.{ending_of, lacks_text};

    fn of(texts: &Texts) -> Ending
        ensures { result ≡ ending_of texts.now }
    {
        Ending {
            status: texts.status,
            unwoven: unwoven_of(&texts.edited),
            is_sourceless: matches!(texts.saved, Saved::WithoutSource),
        }
    }

    /// Whether the edited text is missing, or a source text.
    pub(crate) fn lacks_text(self) -> bool
        ensures { result ≡ lacks_text self }
    {
        self.unwoven.is_some() || self.is_sourceless
    }
}

/// What a run leaves: how it ended, and the texts that go out.
#[derive(Debug, Drop)]
struct Left<'a> {
    ending: Ending,
    outputs: Vec<Filed<'a>>,
}

/// An input, and why it can't be read as far as that is known.
type Noted<R> = NotedReader<Source<<R as Files>::File, <R as Input>::Reader>>;

fn opened<'a, R: Files<File = File> + Input>(rt: &R, path: &'a str) -> Result<Noted<R>, Stop<'a>> {
    if is_standard_input(path) {
        return Ok(NotedReader::new(Source::Standard(rt.reader())));
    }
    match File::open(rt, path) {
        Ok(file) => Ok(NotedReader::new(Source::File(file))),
        Err(error) => {
            let reason = Reason::Unread(error);
            Err(Stop::at(RunFault::Read, Obstacle { path, reason }))
        }
    }
}

/// Why a run stopped that has asked these.
fn stopped<'a, F, W>(
    fault: RunFault,
    paths: &'a Paths,
    map: &mut NotedReader<F>,
    script: &mut NotedReader<F>,
    messages: &mut NotedWriter<'_, W>,
) -> Stop<'a> {
    let obstacle = match fault {
        RunFault::Memory => None,
        RunFault::Write => obstacle_of_output(messages),
        _ => obstacle_of_inputs(
            MOST_BYTES as u64,
            paths.map.as_str(),
            map,
            paths.script.as_str(),
            script,
        ),
    };
    Stop { fault, obstacle }
}

/// The name of the top that is asked, if one is.
fn top_of(options: &Options) -> Option<&str> {
    match &options.top {
        Some(name) => Some(name.as_str()),
        None => None,
    }
}

/// What tells on `errors` why something is refused, unless the run is to be quiet.
fn explainer_of<'x, E: Write>(
    alloc: Global,
    asked: &'x Asked,
    errors: &'x mut E,
) -> Explainer<'x, E> {
    let names = Names {
        map: asked.paths.map.as_str(),
        script: asked.paths.script.as_str(),
    };
    let most = if asked.quiet { 0 } else { MOST };
    Explainer::new(alloc, names, top_of(&asked.options), most, errors)
}

/// What a run came to, and whether the map that it leaves has a warning.
#[derive(Drop)]
struct Told {
    ran: Result<Texts, RunFault>,
    is_odd: bool,
}

/// Runs the script of the second input on the map or session of the first. Why something is refused is told on `errors`, unless the run
/// is to be quiet; the texts are the same whatever is told.
fn run_told<F: Read, M: Write, E: Write>(
    alloc: Global,
    asked: &Asked,
    map: &mut NotedReader<F>,
    script: &mut NotedReader<F>,
    messages: &mut NotedWriter<'_, M>,
    errors: &mut E,
) -> Told
    ensures ran { IfOk result.ran (AreRun asked.entry.now.options (F.remaining map.old.reader) (F.remaining script.old.reader)
        (M.contents messages.old.writer.now) (M.contents messages.new.writer.now)) }
    ensures beside { IfOk result.ran (λ texts. MakesBeside asked.entry.now.options (F.remaining map.old.reader) (F.remaining script.old.reader)
        texts.status (string_bytes texts.rdl) (string_bytes texts.session) texts.edited texts.saved) }
{
    let mut explainer = explainer_of(alloc, asked, errors);
    let ran = run_observed(alloc, map, script, &asked.options, messages, &mut explainer);
    let is_odd = explainer.finish();
    Told { ran, is_odd }
}

/// The same, and then warns of what is odd of the map that the run leaves.
fn run_explained<F: Read, M: Write, E: Write>(
    alloc: Global,
    asked: &Asked,
    map: &mut NotedReader<F>,
    script: &mut NotedReader<F>,
    messages: &mut NotedWriter<'_, M>,
    errors: &mut E,
) -> Result<Texts, RunFault>
    ensures ran { IfOk result (AreRun asked.entry.now.options (F.remaining map.old.reader) (F.remaining script.old.reader)
        (M.contents messages.old.writer.now) (M.contents messages.new.writer.now)) }
    ensures beside { IfOk result (λ texts. MakesBeside asked.entry.now.options (F.remaining map.old.reader) (F.remaining script.old.reader)
        texts.status (string_bytes texts.rdl) (string_bytes texts.session) texts.edited texts.saved) }
{
    let Told { ran, is_odd } = run_told(alloc, asked, map, script, messages, errors);
    let texts = ran?;
    if is_odd {
        warn(alloc, &asked.paths, &texts, errors);
    }
    Ok(texts)
}

/// The same, and at which file a run stopped. The texts are those of the run, each under its name.
fn run_inputs<'a, F: Read, M: Write, E: Write>(
    alloc: Global,
    asked: &'a Asked,
    map: &mut NotedReader<F>,
    script: &mut NotedReader<F>,
    messages: &mut NotedWriter<'_, M>,
    errors: &mut E,
) -> Result<Texts, Stop<'a>>
    ensures ran { IfOk result (AreRun asked.entry.now.options (F.remaining map.old.reader) (F.remaining script.old.reader)
        (M.contents messages.old.writer.now) (M.contents messages.new.writer.now)) }
    ensures beside { IfOk result (λ texts. MakesBeside asked.entry.now.options (F.remaining map.old.reader) (F.remaining script.old.reader)
        texts.status (string_bytes texts.rdl) (string_bytes texts.session) texts.edited texts.saved) }
{
    match run_explained(alloc, asked, map, script, messages, errors) {
        Ok(texts) => Ok(texts),
        Err(fault) => Err(stopped(fault, &asked.paths, map, script, messages)),
    }
}

/// Puts a text and its path behind the others, if it is there.
fn push_if<'a>(
    outputs: &mut Vec<Filed<'a>>,
    is_there: bool,
    path: &'a str,
    text: String,
) -> Result<(), AllocError>
    ensures { OnOk result (map seen outputs.new.items ≡ map seen outputs.old.items ++ if_there is_there (path.entry.now, string_bytes text)) }
{
    if is_there {
        outputs.push(Filed { path, text })?;
    }
    Ok(())
}

/// Why the edited text isn't there that is asked for, if it isn't.
fn unwoven_of(edited: &Edited) -> Option<Unwoven>
    ensures { result ≡ unwoven_of edited.now }
{
    match edited {
        Edited::Missing(why) => Some(*why),
        Edited::NotAsked | Edited::Woven(_) => None,
    }
}

/// Whether texts go out. With `strict` none does unless each line was accepted and no text is missing.
fn goes_out(strict: bool, ending: Ending) -> bool
    ensures { result ≡ goes_out strict ending }
{
    !strict || ending.status == Status::Accepted && !ending.lacks_text()
}

/// Puts the edited text behind the others, if it is there and has a path.
fn push_edited<'a>(
    outputs: &mut Vec<Filed<'a>>,
    path: &'a Option<String>,
    edited: Edited,
) -> Result<(), AllocError>
    ensures { OnOk result (map seen outputs.new.items ≡ map seen outputs.old.items ++ edited_files (option_map string_bytes path.entry.now) edited) }
{
    if let (Some(path), Edited::Woven(text)) = (path, edited) {
        outputs.push(Filed {
            path: path.as_str(),
            text,
        })?;
    }
    Ok(())
}

/// The session as it goes out.
fn saved_text(session: String, saved: Saved) -> String
    ensures { string_bytes result ≡ saved_text (string_bytes session) saved }
{
    match saved {
        Saved::WithSource(text) => text,
        Saved::Plain | Saved::WithoutSource => session,
    }
}

/// The texts that go out, each with its path. With `strict` none does unless each line was accepted and no text is missing.
fn outputs_of<'a>(
    alloc: Global,
    texts: Texts,
    paths: &'a Paths,
    strict: bool,
) -> Result<Vec<Filed<'a>>, AllocError>
    ensures { IfOk result (λ outputs. map seen outputs.items ≡ files_of strict texts paths.entry.now) }
{
    let mut outputs = Vec::new(alloc);
    if !goes_out(strict, Ending::of(&texts)) {
        return Ok(outputs);
    }
    let Texts {
        status,
        rdl,
        header,
        session,
        edited,
        saved,
    } = texts;
    push_if(&mut outputs, status.has_map(), paths.rdl.as_str(), rdl)?;
    push_if(
        &mut outputs,
        status.has_header(),
        paths.header.as_str(),
        header,
    )?;
    if let Some(path) = &paths.session {
        let text = saved_text(session, saved);
        push_if(&mut outputs, status.has_session(), path.as_str(), text)?;
    }
    push_edited(&mut outputs, &paths.edited, edited)?;
    Ok(outputs)
}

/// What a run leaves that made these texts.
fn left_by<'a>(alloc: Global, texts: Texts, asked: &'a Asked) -> Result<Left<'a>, Stop<'a>>
    ensures ending { IfOk result (λ left. left.ending ≡ ending_of texts) }
    ensures outputs { IfOk result (λ left. map seen left.outputs.items ≡ files_of asked.entry.now.strict texts asked.entry.now.paths) }
{
    let ending = Ending::of(&texts);
    match outputs_of(alloc, texts, &asked.paths, asked.strict) {
        Ok(outputs) => Ok(Left { ending, outputs }),
        Err(_) => Err(Stop::for_memory()),
    }
}

/// Whether a text that goes to this path is kept in a file of this name.
fn is_filed(path: &str) -> bool {
    !is_standard_output(path) && path != "/dev/null"
}

/// Warns of what is odd of the map that a run leaves, at its place in the text that goes out.
fn warn<E: Write>(alloc: Global, paths: &Paths, texts: &Texts, errors: &mut E) {
    let (path, text) = match (&paths.edited, &texts.edited) {
        (Some(path), Edited::Woven(text)) => (path.as_str(), text.as_str()),
        _ => (paths.rdl.as_str(), texts.rdl.as_str()),
    };
    let told = if is_filed(path) {
        warnings(alloc, path, Outlet::File, text)
    } else {
        warnings(alloc, paths.map.as_str(), Outlet::Nowhere, text)
    };
    if let Ok(told) = told {
        let _ = write!(errors, "{}", told.as_str());
    }
}

/// The run that is asked. What goes out is of one output of a run of some map and script, each text at its path.
fn run_in_memory<'a, R: Files<File = File> + Input, M: Write, E: Write>(
    rt: &R,
    alloc: Global,
    asked: &'a Asked,
    messages: &mut NotedWriter<'_, M>,
    errors: &mut E,
) -> Result<Left<'a>, Stop<'a>>
    ensures left { IfOk result (IsLeft asked.entry.now) }
{
    let paths = &asked.paths;
    let mut map = opened(rt, paths.map.as_str())?;
    let mut script = opened(rt, paths.script.as_str())?;
    let texts = run_inputs(alloc, asked, &mut map, &mut script, messages, errors)?;
    left_by(alloc, texts, asked)
}

/// Writes the texts whose path is standard output, one after the other.
fn write_standard<W: Write>(
    outputs: &[Filed<'_>],
    output: &mut CountedWriter<'_, W>,
) -> Result<(), RunFault>
    requires asked { IsOpen output.old.counts }
    ensures ok { OnOk result (Appends (W.contents output.old.writer.now) (W.contents output.new.writer.now) (to_output (map seen outputs.entry.now))) }
    ensures fault { IsOkUnless result RunFault.Write }
    ensures same_reference { output.new.writer.ghost_name ≡ output.old.writer.ghost_name }
{
    'outputs: for one in outputs {
        if is_standard_output(one.path) {
            write_counted(output, one.text.as_bytes())?;
        }
    }
    Ok(())
}

/// Writes those texts to standard output, after the messages.
fn write_behind<M: Write>(outputs: &[Filed<'_>], messages: &mut M) -> Result<(), RunFault>
    ensures ok { OnOk result (Appends (M.contents messages.old) (M.contents messages.new) (to_output (map seen outputs.entry.now))) }
    ensures fault { IsOkUnless result RunFault.Write }
{
    let mut messages = CountedWriter::new(messages, 0);
    write_standard(outputs, &mut messages)
}

/// The texts that go to files, each with the path of its file.
fn file_texts<'p, 't>(
    alloc: Global,
    outputs: &'t [Filed<'p>],
) -> Result<Vec<Output<'p, 't>>, AllocError>
    ensures { IfOk result (λ files. map lent files.items ≡ to_files (map seen outputs.entry.now)) }
{
    let mut files = Vec::new(alloc);
    'outputs: for one in outputs {
        if !is_standard_output(one.path) {
            files.push(Output {
                path: one.path,
                text: one.text.as_bytes(),
            })?;
        }
    }
    Ok(files)
}

/// Replaces the files by their texts.
fn write_files<'a, R: Files<File = File>>(
    rt: &R,
    alloc: Global,
    outputs: &[Filed<'a>],
) -> Result<(), Stop<'a>> {
    let Ok(files) = file_texts(alloc, outputs) else {
        return Err(Stop::for_memory());
    };
    match write_whole(rt, alloc, files.as_slice()) {
        Ok(()) => Ok(()),
        Err(OutputFault::Memory) => Err(Stop::for_memory()),
        Err(OutputFault::Unwritten { path, error }) => {
            let reason = Reason::Unwritten(error);
            Err(Stop::at(RunFault::Write, Obstacle { path, reason }))
        }
    }
}

/// Runs the script on its map or session. Behind the messages, standard output gets the text that goes there. The files are
/// replaced only when all that is written: none where the map is refused, and all but those whose text is missing. Why something is
/// refused goes to `errors`.
pub(crate) fn edit_files<'a, R: Files<File = File> + Input, M: Write, E: Write>(
    rt: &R,
    alloc: Global,
    asked: &'a Asked,
    messages: &mut M,
    errors: &mut E,
) -> Result<Ending, Stop<'a>>
    ensures ending { IfOk result (IsEndingOf asked.entry.now.options) }
{
    let mut messages = NotedWriter::new(messages);
    let Left { ending, outputs } = run_in_memory(rt, alloc, asked, &mut messages, errors)?;
    if let Err(fault) = write_behind(outputs.as_slice(), &mut messages) {
        let obstacle = obstacle_of_output(&mut messages);
        return Err(Stop { fault, obstacle });
    }
    write_files(rt, alloc, outputs.as_slice())?;
    Ok(ending)
}
