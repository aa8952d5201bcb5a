//! Writing a session.
ghost use Rattle.std.specs.Prelude.{◌≡◌, ◌++◌, ◌<◌, ◌≤◌, [], length, map, codes, string_bytes, string_len, IfOk, IfErr, OnOk};
ghost use Rattle.rdl_session.specs.Text.{
  line_feed,
  act,
  count_line,
  counted,
  patch_text,
  step_text,
  steps_text,
  max_session,
  shell_item,
  value_item,
  target_item,
};
ghost use Rattle.rdl_tree.specs.declared.patch.Patch.TheVariants.{Exchange};
ghost use Rattle.rdl_write.specs.ItemText.{item_text};
ghost use Rattle.rdl_write.specs.MapText.{map_text};
ghost use Rattle.rdl_session.specs.Written.{written, written_session, Stops};

use crate::MAX_LEN;
use crate::fault::SessionWriteFault;
use rdl_text::token::Number;
use rdl_tree::description::{Description, Item};
use rdl_tree::part::Part;
use rdl_tree::patch::Patch;
use rdl_tree::patch_address::PatchAddress;
use rdl_tree::shell::Shell;
use rdl_tree::target::Target;
use rdl_tree::value::Value;
use rdl_write::{push_decimal, push_dynamic, push_item, push_named, push_own, rdl};
use std::alloc::{AllocError, Global};

fn item_text(alloc: Global, item: &Item) -> Result<String, AllocError>
    ensures { IfOk result (λ text. string_bytes text ≡ item_text [] item.now) }
{
    let mut text = String::new(alloc);
    push_item(alloc, &mut text, "", item)?;
    Ok(text)
}

/// The text of the instance that stands for its shell.
fn shell_text(alloc: Global, shell: &Shell) -> Result<String, AllocError>
    ensures { IfOk result (λ text. string_bytes text ≡ item_text [] (shell_item shell.now)) }
{
    let mut text = String::new(alloc);
    push_named(&mut text, "", shell, "T")?;
    Ok(text)
}

/// The text of the assignment that stands for its value.
fn value_text(alloc: Global, value: &Value) -> Result<String, AllocError>
    ensures { IfOk result (λ text. string_bytes text ≡ item_text [] (value_item value.now)) }
{
    let mut text = String::new(alloc);
    push_own(&mut text, "", "p", value)?;
    Ok(text)
}

/// The text of the assignment that stands for its target.
fn target_text(alloc: Global, target: &Target) -> Result<String, AllocError>
    ensures { IfOk result (λ text. string_bytes text ≡ item_text [] (target_item target.now)) }
{
    let mut text = String::new(alloc);
    push_dynamic(&mut text, "", target, "p", &Value::Bool(true))?;
    Ok(text)
}

/// Appends ` COUNT` and the end of the line.
pub(crate) fn push_count(text: &mut String, word: &str, count: usize) -> Result<(), AllocError>
    ensures { OnOk result (string_bytes text.new ≡ string_bytes text.old ++ count_line word.now count) }
{
    write!(text, "{word} ")?;
    push_decimal(text, count as Number)?;
    text.push_str("\n")
}

/// Appends what a patch does, and where.
fn push_act(text: &mut String, word: &str, address: &PatchAddress) -> Result<(), AllocError>
    ensures { OnOk result (string_bytes text.new ≡ string_bytes text.old ++ act word.now address.now) }
{
    write!(text, "{word} {address}")
}

/// Appends what a patch does, where, and the text of an item.
#[tactic(auto, unfolding(crate::specs::Text::counted))]
fn push_text(
    text: &mut String,
    word: &str,
    address: &PatchAddress,
    inner: &str,
) -> Result<(), AllocError>
    ensures { OnOk result (string_bytes text.new ≡ string_bytes text.old ++ counted (act word.now address.now) inner.now) }
{
    push_act(text, word, address)?;
    push_count(text, "", inner.len())?;
    text.push_str(inner)
}

#[tactic(auto, unfolding(crate::specs::Text::patch_text))]
fn push_exchange(
    alloc: Global,
    text: &mut String,
    address: &PatchAddress,
    part: &Part,
) -> Result<(), AllocError>
    ensures { OnOk result (string_bytes text.new ≡ string_bytes text.old ++ patch_text (written (Exchange address.now part.now))) }
{
    match part {
        Part::OfShell(shell) => {
            let inner = shell_text(alloc, shell)?;
            push_text(text, "shell", address, inner.as_str())
        }
        Part::OfValue(value) => {
            let inner = value_text(alloc, value)?;
            push_text(text, "value", address, inner.as_str())
        }
        Part::OfTarget(target) => {
            let inner = target_text(alloc, target)?;
            push_text(text, "target", address, inner.as_str())
        }
        Part::OfType(name) => write!(text, "type {address} {name}\n"),
        Part::OfDefine(name) => write!(text, "name {address} {name}\n"),
    }
}

#[tactic(auto, unfolding(crate::specs::Text::patch_text))]
fn push_patch(alloc: Global, text: &mut String, patch: &Patch) -> Result<(), AllocError>
    ensures { OnOk result (string_bytes text.new ≡ string_bytes text.old ++ patch_text (written patch.now)) }
{
    match patch {
        Patch::Insert(address, item) => {
            let inner = item_text(alloc, item)?;
            push_text(text, "insert", address, inner.as_str())
        }
        Patch::Delete(address) => write!(text, "delete {address}\n"),
        Patch::Shift(address, number) => write!(text, "shift {address} {number}\n"),
        Patch::Exchange(address, part) => push_exchange(alloc, text, address, part),
    }
}

/// Appends a step. It stops where the text is too long, however many patches are left.
fn push_step(alloc: Global, text: &mut String, patches: &[Patch]) -> Result<(), SessionWriteFault>
    ensures ok { OnOk result (string_bytes text.new ≡ string_bytes text.old ++ step_text (map written patches.now)) }
    ensures err { IfErr result (λ fault. Stops fault (string_bytes text.old ++ step_text (map written patches.now))) }
{
    push_count(text, "back", patches.len())?;
    'patches: for patch in patches {
        if text.len() > MAX_LEN {
            return Err(SessionWriteFault::TooLong);
        }
        push_patch(alloc, text, patch)?;
    }
    Ok(())
}

/// Appends steps.
fn push_steps(
    alloc: Global,
    text: &mut String,
    word: &str,
    steps: &[&[Patch]],
) -> Result<(), SessionWriteFault>
    ensures ok { OnOk result (string_bytes text.new ≡ string_bytes text.old ++ steps_text word.now (map (λ step. map written step.now) steps.entry.now)) }
    ensures err { IfErr result (λ fault. Stops fault (string_bytes text.old ++ steps_text word.now (map (λ step. map written step.now) steps.entry.now))) }
{
    push_count(text, word, steps.len())?;
    'steps: for step in steps {
        push_step(alloc, text, step)?;
    }
    Ok(())
}

/// The lines before the steps.
#[tactic(auto, unfolding(crate::specs::Text::counted))]
fn head(alloc: Global, description: &Description) -> Result<String, AllocError>
    ensures { IfOk result (λ text. string_bytes text ≡ codes "regedit session 1" ++ line_feed ++ counted (codes "map") (map_text description.now.items)) }
{
    let map = rdl(alloc, description)?;
    let mut text = String::from_str(alloc, "regedit session 1\n")?;
    push_count(&mut text, "map", map.len())?;
    text.push_str(map.as_str())?;
    Ok(text)
}

/// The text of a session: the map, then the steps that lead back from it, then those that lead on, each list with the next
/// one to be taken first.
pub fn session(
    alloc: Global,
    description: &Description,
    undo: &[&[Patch]],
    redo: &[&[Patch]],
) -> Result<String, SessionWriteFault>
    ensures ok { IfOk result (λ text. string_bytes text ≡ written_session description.now.items (map (λ step. step.now) undo.entry.now) (map (λ step. step.now) redo.entry.now)) }
    ensures short { IfOk result (λ text. string_len text ≤ max_session) }
    ensures err { IfErr result (λ fault. Stops fault (written_session description.now.items (map (λ step. step.now) undo.entry.now) (map (λ step. step.now) redo.entry.now))) }
{
    let mut text = head(alloc, description)?;
    push_steps(alloc, &mut text, "undo", undo)?;
    push_steps(alloc, &mut text, "redo", redo)?;
    text.push_str("end\n")?;
    if text.len() > MAX_LEN {
        return Err(SessionWriteFault::TooLong);
    }
    Ok(text)
}
