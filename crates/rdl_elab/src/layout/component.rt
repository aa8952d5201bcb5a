//! The layout of a component, from its values and the layouts of its instances' components.
ghost use Rattle.std.specs.Prelude.{◌≡◌, [], map, IfOk};
ghost use Rattle.rdl_elab.specs.declared.layout.Member.{Member};
ghost use Rattle.rdl_elab.specs.Size.{bytes_of};
ghost use Rattle.rdl_elab.specs.Layouts.{laid_out};
ghost use Rattle.rdl_elab.specs.Capped.{capped, capped_layout, IsAlignment};

use crate::layout::bits::bits;
use crate::layout::place::place;
use crate::layout::round::{LIMIT, capped};
use crate::layout::{FieldBits, Layout, LayoutValues, Member, Mode, Placement, Spans};
use rdl_tree::shell::Kind;
use std::alloc::{AllocError, Global};

fn placements(alloc: Global, members: &[Member]) -> Result<Vec<Placement>, AllocError>
    ensures { IfOk result (λ ps. ps.items ≡ map (λ (i : Member). i.placement) members.now) }
{
    members.iter().map(|member| member.placement).collect(alloc)
}

fn field_bits(alloc: Global, members: &[Member]) -> Result<Vec<FieldBits>, AllocError>
    ensures { IfOk result (λ fs. fs.items ≡ map (λ (i : Member). i.bits) members.now) }
{
    members.iter().map(|member| member.bits).collect(alloc)
}

/// A register with these values, whose fields have these bits.
pub fn register(values: LayoutValues, spans: Spans) -> Layout
    ensures { result ≡ record { size = capped (bytes_of values.regwidth); access = bytes_of values.accesswidth; spans = spans } }
{
    Layout {
        size: (values.regwidth / 8).min(LIMIT),
        access: values.accesswidth / 8,
        spans,
    }
}

/// A field with these values.
pub fn field(alloc: Global, values: LayoutValues) -> Layout
    ensures { result ≡ record { size = capped values.fieldwidth; access = 0; spans = [] } }
{
    Layout {
        size: capped(values.fieldwidth),
        access: 0,
        spans: Spans::from_vec(Vec::new(alloc)),
    }
}

/// A component of this kind with these values, whose instances stand under this mode. Numbers over 2^40 are kept as
/// 2^40 + 1.
pub fn lay_out(
    alloc: Global,
    kind: Kind,
    values: LayoutValues,
    mode: Mode,
    members: &[Member],
) -> Result<Layout, AllocError>
    requires { IsAlignment values.alignment }
    ensures { IfOk result (λ l. l ≡ capped_layout (laid_out kind values mode members.now)) }
{
    match kind {
        Kind::Addrmap | Kind::Regfile => {
            let items = placements(alloc, members)?;
            place(alloc, values.alignment, mode, items.as_slice())
        }
        Kind::Reg => {
            let fields = field_bits(alloc, members)?;
            let spans = bits(alloc, fields.as_slice())?;
            Ok(register(values, spans))
        }
        Kind::Field => Ok(field(alloc, values)),
    }
}
