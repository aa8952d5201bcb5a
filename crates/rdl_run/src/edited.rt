//! The text of MAP with only the edits woven in.
ghost use Rattle.std.specs.Prelude.{◌≡◌, IfOk, IfSome, IsOkUnless, IsTrue, IsUtf8, map, string_bytes};
ghost use Rattle.std.specs.Option.{option_copied};
ghost use Rattle.rdl_origin.specs.Numbered.{origins_of};
ghost use Rattle.rdl_run.specs.Edited.{IsEdited, IsMade, IsMissing, IsSame, IsTaken, all_led_back, are_all_placed};
ghost use Rattle.rdl_run.specs.Sources.{source_of, without_source};
ghost use Rattle.rdl_weave.specs.Sources.{IsSource};
ghost use Rattle.rdl_run.specs.declared.status.RunFault.{RunFault};

use crate::saving::steps_back;
use crate::sources::{source_of, source_read};
use crate::status::RunFault;
use journal_core::journal::Journal;
use rdl_edit::map::Map;
use rdl_origin::origin::Origins;
use rdl_tree::description::Description;
use rdl_tree::patch::Patch;
use rdl_weave::fault::WeaveFault;
use rdl_weave::source::Source;
use rdl_weave::weave::weave;
use std::alloc::{AllocError, Global};
use std::str;
use thiserror::Error;

/// What became of the edited text.
#[derive(Debug, Drop)]
pub enum Edited {
    /// It isn't asked for, or the map or session is refused.
    NotAsked,
    /// It is made.
    Woven(String),
    /// It isn't made, for this reason.
    Missing(Unwoven),
}

/// Why an edited text isn't made that is asked for.
#[derive(Clone, Copy, Debug, PartialEq, Eq, Drop, Error)]
pub enum Unwoven {
    /// It would be longer than a map may be.
    #[error("K1 edited text too long")]
    TooLong,
    /// No text was found that has only these edits.
    #[error("K2 edited text not woven")]
    NotWoven,
    /// MAP is a session that keeps no source text.
    #[error("K3 no source text in the session")]
    NoSource,
}

/// Which items of the last map those of the first one became, and whether all steps led back to that.
#[derive(Drop)]
struct Led {
    origins: Origins,
    is_whole: bool,
}

/// Takes the steps back. Each leads somewhere: those of a journal do.
fn led_back(alloc: Global, last: &Description, steps: &[&[Patch]]) -> Result<Led, AllocError>
    ensures led { IfOk result (λ led. IsTrue led.is_whole → led.origins ≡ all_led_back (map (λ step. step.now) steps.entry.now) (origins_of last.now.items)) }
    ensures whole { IfOk result (λ led. led.is_whole ≡ are_all_placed (map (λ step. step.now) steps.entry.now) (origins_of last.now.items)) }
{
    let mut origins = Origins::new(alloc, last)?;
    'steps: for step in steps {
        if !origins.go_back(alloc, step)? {
            return Ok(Led {
                origins,
                is_whole: false,
            });
        }
    }
    Ok(Led {
        origins,
        is_whole: true,
    })
}

/// The edited text of what was woven. Where a step led nowhere, it is the source or none.
fn edited_of(
    woven: Result<String, WeaveFault>,
    source: &str,
    is_whole: bool,
) -> Result<Edited, RunFault>
    ensures taken { IfOk result (IsTaken is_whole source.now woven) }
    ensures fault { IsOkUnless result RunFault.Memory }
{
    match woven {
        Ok(text) if is_whole || text.as_str() == source => Ok(Edited::Woven(text)),
        Ok(_) | Err(WeaveFault::NotWoven) => Ok(Edited::Missing(Unwoven::NotWoven)),
        Err(WeaveFault::TooLong) => Ok(Edited::Missing(Unwoven::TooLong)),
        Err(WeaveFault::Memory) => Err(RunFault::Memory),
    }
}

/// The source with the edits of the journal woven in. The canonical text is that of the journal's map. What was read of the source
/// isn't read again.
fn woven(
    alloc: Global,
    journal: &Journal<Map>,
    source: &str,
    read: Option<Source>,
    canonical: &str,
) -> Result<Edited, RunFault>
    requires { IfSome read (IsSource source.now) }
    ensures made { IfOk result (IsMade journal.now.history source.now canonical.now) }
    ensures same { IfOk result (IsSame source.now canonical.now) }
    ensures fault { IsOkUnless result RunFault.Memory }
{
    let steps = steps_back(alloc, journal)?;
    let last = journal.map().description();
    let led = led_back(alloc, last, steps.as_slice())?;
    let text = weave(alloc, source, read, &led.origins, last, canonical);
    edited_of(text, source, led.is_whole)
}

/// The edited text of a journal that was opened of these bytes, of which this was read, if it is asked for. The canonical text is that of
/// its map.
#[tactic(auto, using(crate::proofs::Besides::no_text))]
pub(crate) fn edited_part(
    alloc: Global,
    journal: &Journal<Map>,
    bytes: &[u8],
    read: Option<Source>,
    canonical: &str,
    is_asked: bool,
) -> Result<Edited, RunFault>
    requires { IfSome read (IsSource (without_source bytes.now)) }
    ensures edited { IfOk result (IsEdited is_asked journal.now.history (source_of bytes.now) canonical.now) }
    ensures fault { IsOkUnless result RunFault.Memory }
{
    if !is_asked {
        return Ok(Edited::NotAsked);
    }
    let Some(source) = source_of(bytes) else {
        return Ok(Edited::Missing(Unwoven::NoSource));
    };
    let read = source_read(bytes, read);
    match str::from_utf8(source) {
        Ok(text) => woven(alloc, journal, text, read, canonical),
        Err(_) => Ok(Edited::Missing(Unwoven::NotWoven)),
    }
}
