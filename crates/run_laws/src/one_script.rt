//! Scripts of runs that stop and go on, as one script.
ghost use Rattle.std.specs.Prelude.{◌≡◌, ◌++◌, ℕ, List, map, IfOk, OnOk};
ghost use Rattle.run_laws.specs.Stops.{joined};

use std::alloc::{AllocError, Global};

/// Puts these scripts behind what stands, the last one of the list first, and a line feed behind each.
fn push_scripts(all: &mut Vec<u8>, scripts: &[&[u8]]) -> Result<(), AllocError>
    ensures { OnOk result ((more : List ℕ) → all.new.items ++ more ≡ all.old.items ++ joined (map (λ script. script.now) scripts.now) more) }
{
    match scripts {
        [] => Ok(()),
        [script, before @ ..] => {
            push_scripts(all, before)?;
            all.extend_from_slice(script)?;
            all.push(b'\n')?;
            Ok(())
        }
    }
}

/// The bytes of one script that does what runs of these scripts do, each of which goes on where the one before stopped: the
/// scripts of the list, the last one first, and then this one.
pub fn joined(alloc: Global, scripts: &[&[u8]], more: &[u8]) -> Result<Vec<u8>, AllocError>
    ensures { IfOk result (λ all. all.items ≡ joined (map (λ script. script.now) scripts.now) more.now) }
{
    let mut all = Vec::new(alloc);
    push_scripts(&mut all, scripts)?;
    all.extend_from_slice(more)?;
    Ok(all)
}
