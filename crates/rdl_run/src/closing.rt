//! How a run closes.
ghost use Rattle.std.specs.Prelude.{◌≡◌, ◌++◌, string_bytes, IfOk, OnOk, IsOkUnless};
ghost use Rattle.rdl_run.specs.Closing.{Heads, status_of};
ghost use Rattle.rdl_run.specs.Messages.{clash_line};
ghost use Rattle.rdl_run.specs.Shown.{AreOf};
ghost use Rattle.rdl_run.specs.declared.status.RunFault.{RunFault};

use crate::edited::{Edited, edited_part};
use crate::observer::{Observer, Scene};
use crate::part::Part;
use crate::run::Options;
use crate::saved::{Saved, saved_part};
use crate::saving::session_part;
use crate::shown::rows_of;
use crate::sources::source_of;
use crate::status::{Missing, RunFault, Status};
use journal_core::journal::Journal;
use rdl_edit::map::Map;
use rdl_elab::row::Rows;
use rdl_header::{HeaderFault, header};
use rdl_weave::source::Source;
use rdl_write::rdl;
use std::alloc::{AllocError, Global};

/// What is written behind the replies of a script, and how the run ended.
#[derive(Debug, Drop)]
pub struct Closing {
    /// What is said of the texts that are missing.
    pub message: String,
    pub rdl: String,
    pub header: String,
    pub session: String,
    pub edited: Edited,
    pub saved: Saved,
    pub status: Status,
}

/// The message of two macros that have one name.
fn clash_line(alloc: Global, name: &str) -> Result<String, AllocError>
    ensures { IfOk result (λ text. string_bytes text ≡ clash_line name.now) }
{
    let mut text = String::new(alloc);
    write!(text, "header: H1 two macros with one name: {name}\n")?;
    Ok(text)
}

/// The header of a map, whose rows may be kept, or what is said in its place. The observer is told of two macros with one name.
fn header_part<O: Observer>(
    alloc: Global,
    map: &Map,
    kept: Option<Rows>,
    source: Option<&[u8]>,
    observer: &mut O,
) -> Result<Part, RunFault>
    requires { AreOf map.now.state kept }
    ensures heads { IfOk result (λ part. Heads map.now.state (string_bytes part.message) (string_bytes part.text) part.is_left_out) }
    ensures fault { IsOkUnless result RunFault.Memory }
{
    let rows = rows_of(alloc, map, kept)?;
    match header(alloc, rows.as_slice()) {
        Ok(text) => Ok(Part::made(alloc, text)),
        Err(HeaderFault::Clash(name)) => {
            let message = clash_line(alloc, name.as_str())?;
            observer.header_clashes(name.as_str(), Scene { map, source });
            Ok(Part::left_out(alloc, message))
        }
        Err(HeaderFault::Memory) => Err(RunFault::Memory),
    }
}

fn status_of(is_refused: bool, has_no_header: bool, has_no_session: bool) -> Status
    ensures { result ≡ status_of is_refused has_no_header has_no_session }
{
    match (has_no_header, has_no_session) {
        (true, true) => Status::Incomplete(Missing::Both),
        (true, false) => Status::Incomplete(Missing::Header),
        (false, true) => Status::Incomplete(Missing::Session),
        (false, false) if is_refused => Status::LineRefused,
        (false, false) => Status::Accepted,
    }
}

/// One text behind another.
fn joined(mut text: String, more: &String) -> Result<String, AllocError>
    ensures { IfOk result (λ both. string_bytes both ≡ string_bytes text ++ string_bytes more.now) }
{
    text.push_str(more.as_str())?;
    Ok(text)
}

impl Closing {
    ghost use Rattle.std.specs.Prelude.{◌≡◌, ◌&&◌, [], string_bytes, IfOk, IfSome, IsOkUnless};
    ghost use Rattle.rdl_run.specs.Closing.{Closes};
    ghost use Rattle.rdl_run.specs.Edited.{IsEdited};
    ghost use Rattle.rdl_run.specs.Missing.{has_session};
    ghost use Rattle.rdl_run.specs.Saved.{IsKept};
    ghost use Rattle.rdl_run.specs.Sources.{kept_source, source_of, without_source};
    ghost use Rattle.rdl_weave.specs.Sources.{IsSource};
    ghost use Rattle.rdl_run.specs.declared.saved.Saved.{Saved};
    ghost use Rattle.rdl_run.specs.declared.edited.Edited.{Edited};
    ghost use Rattle.rdl_run.specs.OwnSteps.{AllOwn, IsOwnSession};
    ghost use Rattle.rdl_run.specs.Shown.{AreAt};
    ghost use Rattle.rdl_run.specs.declared.status.RunFault.{RunFault};
    ghost use Rattle.rdl_run.specs.declared.status.Status.{Status};

    /// What is said of a map or session that is refused. There are no texts.
    pub fn refused(alloc: Global, message: String) -> Closing
        ensures message { string_bytes result.message ≡ string_bytes message }
        ensures rdl { string_bytes result.rdl ≡ [] }
        ensures header { string_bytes result.header ≡ [] }
        ensures session { string_bytes result.session ≡ [] }
        ensures edited { result.edited ≡ Edited.NotAsked }
        ensures saved { result.saved ≡ Saved.Plain }
        ensures status { result.status ≡ Status.MapRefused }
    {
        Closing {
            message,
            rdl: String::new(alloc),
            header: String::new(alloc),
            session: String::new(alloc),
            edited: Edited::NotAsked,
            saved: Saved::Plain,
            status: Status::MapRefused,
        }
    }

    /// Makes the texts of the map to which a script led, and of the history if the session is asked for, or the messages in
    /// their places. The rows are those of the map, if they are there. The bytes are those that were read, and the source is what was
    /// read of their text, if it was.
    pub fn of<O: Observer>(
        alloc: Global,
        journal: &Journal<Map>,
        kept: Option<Rows>,
        is_refused: bool,
        options: &Options,
        bytes: &[u8],
        source: Option<Source>,
        observer: &mut O,
    ) -> Result<Closing, RunFault>
        requires kept { AreAt journal.now.history kept }
        requires source { IfSome source (IsSource (without_source bytes.now)) }
        ensures closes { IfOk result (λ c. Closes options.now.session journal.now.history is_refused (string_bytes c.message) (string_bytes c.rdl) (string_bytes c.header) (string_bytes c.session) c.status) }
        ensures edited { IfOk result (λ c. IsEdited options.now.edited journal.now.history (source_of bytes.now) (string_bytes c.rdl) c.edited) }
        ensures saved { IfOk result (λ c. IsKept (kept_source (options.now.session && has_session c.status) options.now.edited bytes.now) (string_bytes c.session) c.saved) }
        ensures own { AllOwn journal.now → IfOk result (λ c. IsOwnSession journal.now.history (string_bytes c.session)) }
        ensures fault { IsOkUnless result RunFault.Memory }
    {
        let rdl = rdl(alloc, journal.map().description())?;
        let header = header_part(alloc, journal.map(), kept, source_of(bytes), observer)?;
        let session = session_part(alloc, journal, options.session)?;
        let edited = edited_part(alloc, journal, bytes, source, rdl.as_str(), options.edited)?;
        let status = status_of(is_refused, header.is_left_out, session.is_left_out);
        let is_saved = options.session && status.has_session();
        let saved = saved_part(
            alloc,
            bytes,
            session.text.as_str(),
            is_saved,
            options.edited,
        )?;
        Ok(Closing {
            message: joined(header.message, &session.message)?,
            rdl,
            header: header.text,
            session: session.text,
            edited,
            saved,
            status,
        })
    }
}
