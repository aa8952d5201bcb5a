//! What is written of an instance besides its component.
ghost use Rattle.std.specs.Prelude.{◌≡◌, ◌++◌, string_bytes, OnOk};
ghost use Rattle.std.specs.List.{flat_map};
ghost use Rattle.rdl_write.specs.Texts.{kind_text, outside_text, dim_text, range_text, part_text, shell_text};

use crate::number::{push_decimal, push_hexadecimal};
use rdl_text::token::Number;
use rdl_tree::shell::{Kind, Outside, Shell};
use std::alloc::AllocError;

/// The word for a kind of component.
pub fn kind_text(kind: Kind) -> &'static str
    ensures { result.now ≡ kind_text kind }
{
    match kind {
        Kind::Addrmap => "addrmap",
        Kind::Regfile => "regfile",
        Kind::Reg => "reg",
        Kind::Field => "field",
    }
}

/// What stands before the type of an instance.
pub fn outside_text(outside: Outside) -> &'static str
    ensures { result.now ≡ outside_text outside }
{
    match outside {
        Outside::Unsaid => "",
        Outside::External => "external ",
        Outside::Internal => "internal ",
    }
}

fn push_dim(text: &mut String, size: Number) -> Result<(), AllocError>
    ensures { OnOk result (string_bytes text.new ≡ string_bytes text.old ++ dim_text size) }
{
    text.push_str("[")?;
    push_decimal(text, size)?;
    text.push_str("]")
}

/// Appends each size of an array in brackets.
pub fn push_dims(text: &mut String, dims: &[Number]) -> Result<(), AllocError>
    ensures { OnOk result (string_bytes text.new ≡ string_bytes text.old ++ flat_map dim_text dims.now) }
{
    'dims: for size in dims {
        push_dim(text, *size)?;
    }
    Ok(())
}

fn push_range(text: &mut String, range: Option<(Number, Number)>) -> Result<(), AllocError>
    ensures { OnOk result (string_bytes text.new ≡ string_bytes text.old ++ range_text range) }
{
    if let Some((high, low)) = range {
        text.push_str("[")?;
        push_decimal(text, high)?;
        text.push_str(":")?;
        push_decimal(text, low)?;
        text.push_str("]")?;
    }
    Ok(())
}

fn push_part(text: &mut String, mark: &str, part: Option<Number>) -> Result<(), AllocError>
    ensures { OnOk result (string_bytes text.new ≡ string_bytes text.old ++ part_text mark.now part) }
{
    if let Some(number) = part {
        write!(text, " {mark} ")?;
        push_hexadecimal(text, number)?;
    }
    Ok(())
}

/// Appends the name of an instance, and the parts that it has.
#[tactic(auto, unfolding(crate::specs::Texts::shell_text))]
pub fn push_shell(text: &mut String, shell: &Shell) -> Result<(), AllocError>
    ensures { OnOk result (string_bytes text.new ≡ string_bytes text.old ++ shell_text shell.now) }
{
    text.push_str(shell.name().as_str())?;
    push_dims(text, shell.dims())?;
    push_range(text, shell.range())?;
    push_part(text, "=", shell.reset())?;
    push_part(text, "@", shell.address())?;
    push_part(text, "+=", shell.stride())?;
    push_part(text, "%=", shell.align())?;
    Ok(())
}
