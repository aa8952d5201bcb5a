//! From a text to what its map is.
ghost use Rattle.std.specs.Prelude.{◌≡◌, ◌⊎◌, IfOk, IfErr};
ghost use Rattle.rdl_parse.specs.Faults.{out_of_memory};
ghost use Rattle.rdl_parse.specs.Parsing.{Refuses};
ghost use Rattle.library_tests.specs.MapRows.{IsAnswerFor};

use rdl_elab::elaborate::elaborate;
use rdl_elab::row::Rows;
use rdl_parse::fault::ParseFault;
use rdl_parse::parse::parse;
use rdl_tree::fault::Fault;
use std::alloc::Global;

/// The rows of the map that a text spells, or its first fault; the text's fault where it spells no map.
pub fn rows_or_fault(alloc: Global, text: &str) -> Result<Result<Rows, Fault>, ParseFault>
    ensures answered { IfOk result (λ answer. IsAnswerFor text.now answer) }
    ensures refused { IfErr result (λ f. (f ≡ out_of_memory) ⊎ Refuses text.now f) }
{
    match parse(alloc, text) {
        Ok((description, _places)) => Ok(elaborate(alloc, &description, None)),
        Err(fault) => Err(fault),
    }
}
