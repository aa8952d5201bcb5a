//! What a component takes of its instances, of whose components all is kept.
ghost use Rattle.std.specs.Prelude.{◌≡◌, ◌≤◌, ◌+◌, ◌∷◌, List, min, max, map, slice_get, true, false, IfOk, IfSome, IsSomeAnd, OnOk, Some, None, option_copied};
ghost use Rattle.rdl_elab.specs.declared.layout.Mode.{Mode};
ghost use Rattle.rdl_elab.specs.declared.layout.Mode.TheVariants.{Compact};
ghost use Rattle.rdl_tree.specs.declared.shell.Kind.TheVariants.{Regfile, Reg};
ghost use Rattle.rdl_elab.specs.Layouts.{placement, field_bits, member, mode_inside, laid_out};
ghost use Rattle.rdl_elab.specs.Capped.{capped_layout, IsAlignment};
ghost use Rattle.rdl_elab.specs.declared.layout.Placement.{Placement};
ghost use Rattle.rdl_elab.specs.Bare.{IsBare};
ghost use Rattle.rdl_elab.specs.Placing.{with_behind};
ghost use Rattle.rdl_elab.specs.Kept.{Part};
ghost use Rattle.rdl_elab.specs.AlikeParts.{AreAlike};
ghost use Rattle.rdl_elab.specs.BarePlaces.{IsBarePlace};
ghost use Rattle.rdl_elab.specs.Finished.{under};
ghost use Rattle.rdl_elab.specs.Inside.{counted, shown_placement, kept_parts, part_levels, kept_levels, part_rows, finished_rows, lacks_rows, part_empty, kept_empty, IsCounted};

use crate::layout::bits::bits;
use crate::layout::component::{field, register};
use crate::layout::placing::{BarePlace, Placing};
use crate::layout::{FieldBits, Layout, LayoutValues, Mode, Placement};
use crate::walk::finished::{Finished, Layouts, Part, ThreeLayouts};
use crate::walk::shared::SharedAddress;
use rdl_scope::shells::product;
use rdl_text::token::Number;
use rdl_tree::shell::{Kind, Shell};
use std::alloc::{AllocError, Global};

/// The most names of a path below a component that are told apart.
const MAX_LEVELS: usize = 16;

/// The most rows below a component that are told apart.
const MAX_ROWS: usize = 65_536;

fn placement(shell: &Shell, layout: &Layout) -> Placement
    ensures { result ≡ counted (placement (shell.now, layout.now)) }
{
    let dims = shell.dims();
    Placement {
        size: layout.size,
        access: layout.access,
        elements: product(dims),
        is_array: !dims.is_empty(),
        address: shell.address(),
        stride: shell.stride(),
        align: shell.align(),
    }
}

/// How the instances of the component of this number are placed that say nothing but their names.
#[derive(Clone, Copy)]
struct Alike {
    component: usize,
    place: BarePlace,
}

/// How this instance is placed, if its component is among these. It is known afterwards of those like it.
fn learnt_place(
    placing: &Placing,
    known: &mut Option<Alike>,
    part: &Part,
    mode: Mode,
    components: &[Finished],
) -> Option<BarePlace>
    requires alignment { IsAlignment placing.now.alignment }
    requires mode { placing.now.mode ≡ mode }
    requires known { IfSome known.old (AreAlike placing.now.alignment mode components.now) }
    ensures known { IfSome known.new (AreAlike placing.now.alignment mode components.now) }
    ensures place { IfSome result (λ place. IsSomeAnd (slice_get components.now part.now.component) (λ f. IsBarePlace placing.now.alignment mode (under mode f.layouts) place)) }
{
    let finished = part.component(components)?;
    let place = placing.bare_place(finished.layouts.under(mode));
    *known = Some(Alike {
        component: part.number(),
        place,
    });
    Some(place)
}

/// How this instance is placed, if it says nothing but its name, and its component is among these. What is known of those like
/// it isn't asked again.
#[inline(always)]
fn known_place(
    placing: &Placing,
    known: &mut Option<Alike>,
    part: &Part,
    mode: Mode,
    components: &[Finished],
) -> Option<BarePlace>
    requires alignment { IsAlignment placing.now.alignment }
    requires mode { placing.now.mode ≡ mode }
    requires known { IfSome known.old (AreAlike placing.now.alignment mode components.now) }
    ensures known { IfSome known.new (AreAlike placing.now.alignment mode components.now) }
    ensures bare { IfSome result (λ place. IsBare part.now.shell) }
    ensures place { IfSome result (λ place. IsSomeAnd (slice_get components.now part.now.component) (λ f. IsBarePlace placing.now.alignment mode (under mode f.layouts) place)) }
{
    if !part.is_bare() {
        return None;
    }
    match *known {
        Some(alike) if alike.component == part.number() => Some(alike.place),
        _ => learnt_place(placing, known, part, mode, components),
    }
}

/// Places this instance behind those that are placed, if its component is among these.
fn put_other(
    placing: &mut Placing,
    part: &Part,
    mode: Mode,
    components: &[Finished],
) -> Result<(), AllocError>
    requires alignment { IsAlignment placing.old.alignment }
    ensures alignment { placing.new.alignment ≡ placing.old.alignment }
    ensures mode { placing.new.mode ≡ placing.old.mode }
    ensures one { OnOk result ((rest : List Part) → with_behind placing.old (map shown_placement (kept_parts mode components.now (part.now ∷ rest))) ≡ with_behind placing.new (map shown_placement (kept_parts mode components.now rest))) }
{
    match part.component(components) {
        Some(finished) => placing.put(placement(part.shell(), finished.layouts.under(mode))),
        None => Ok(()),
    }
}

/// The same, by what is known of those like it.
#[inline(always)]
fn put_next(
    placing: &mut Placing,
    known: &mut Option<Alike>,
    part: &Part,
    mode: Mode,
    components: &[Finished],
) -> Result<(), AllocError>
    requires alignment { IsAlignment placing.old.alignment }
    requires mode { placing.old.mode ≡ mode }
    requires known { IfSome known.old (AreAlike placing.old.alignment mode components.now) }
    ensures alignment { placing.new.alignment ≡ placing.old.alignment }
    ensures mode { placing.new.mode ≡ placing.old.mode }
    ensures known { IfSome known.new (AreAlike placing.old.alignment mode components.now) }
    ensures one { OnOk result ((rest : List Part) → with_behind placing.old (map shown_placement (kept_parts mode components.now (part.now ∷ rest))) ≡ with_behind placing.new (map shown_placement (kept_parts mode components.now rest))) }
{
    match known_place(placing, known, part, mode, components) {
        Some(place) => placing.put_bare(place),
        None => put_other(placing, part, mode, components),
    }
}

fn field_bits(shell: &Shell, layout: &Layout) -> FieldBits
    ensures { result ≡ field_bits (shell.now, layout.now) }
{
    let width = match shell.dims() {
        [] => Number::from(layout.size),
        [width, ..] => *width,
    };
    FieldBits {
        width,
        range: shell.range(),
    }
}

#[tactic(auto, using(crate::proofs::Insides::steps))]
fn fields(
    alloc: Global,
    mode: Mode,
    parts: &[Part],
    components: &[Finished],
) -> Result<Vec<FieldBits>, AllocError>
    ensures { IfOk result (λ fs. fs.items ≡ map field_bits (kept_parts mode components.now parts.now)) }
{
    let mut fields = Vec::with_capacity(alloc, parts.len())?;
    for part in parts {
        if let Some(finished) = part.component(components) {
            fields.push(field_bits(part.shell(), finished.layouts.under(mode)))?;
        }
    }
    Ok(fields)
}

/// The mode of the instances of a component that stands under a mode.
pub(crate) fn mode_inside(kind: Kind, values: LayoutValues, mode: Mode) -> Mode
    ensures { result ≡ mode_inside kind values mode }
{
    match kind {
        Kind::Addrmap => values.addressing,
        Kind::Regfile | Kind::Reg | Kind::Field => mode,
    }
}

/// An address map or a register file with these instances.
fn container(
    alloc: Global,
    values: LayoutValues,
    mode: Mode,
    parts: &[Part],
    components: &[Finished],
) -> Result<Layout, AllocError>
    requires { IsAlignment values.alignment }
    ensures { IfOk result (λ l. l ≡ capped_layout (laid_out Regfile values mode (map member (kept_parts mode components.now parts.now)))) }
{
    let mut placing = Placing::with_room(alloc, values.alignment, mode, parts.len())?;
    let mut known = None;
    for part in parts {
        put_next(&mut placing, &mut known, part, mode, components)?;
    }
    Ok(placing.layout())
}

fn register_of(
    alloc: Global,
    values: LayoutValues,
    mode: Mode,
    parts: &[Part],
    components: &[Finished],
) -> Result<Layout, AllocError>
    ensures { IfOk result (λ l. l ≡ capped_layout (laid_out Reg values mode (map member (kept_parts mode components.now parts.now)))) }
{
    let fields = fields(alloc, mode, parts, components)?;
    let spans = bits(alloc, fields.as_slice())?;
    Ok(register(values, spans))
}

fn layout(
    alloc: Global,
    kind: Kind,
    values: LayoutValues,
    mode: Mode,
    parts: &[Part],
    components: &[Finished],
) -> Result<Layout, AllocError>
    requires { IsAlignment values.alignment }
    ensures { IfOk result (λ l. let n = mode_inside kind values mode in l ≡ capped_layout (laid_out kind values n (map member (kept_parts n components.now parts.now)))) }
{
    match kind {
        Kind::Addrmap => container(alloc, values, values.addressing, parts, components),
        Kind::Regfile => container(alloc, values, mode, parts, components),
        Kind::Reg => register_of(alloc, values, mode, parts, components),
        Kind::Field => Ok(field(alloc, values)),
    }
}

/// The layout under each mode.
fn by_mode(
    alloc: Global,
    kind: Kind,
    values: LayoutValues,
    parts: &[Part],
    components: &[Finished],
) -> Result<Layouts, AllocError>
    requires { IsAlignment values.alignment }
    ensures { IfOk result (λ ls. (m : Mode) → let n = mode_inside kind values m in under m ls ≡ capped_layout (laid_out kind values n (map member (kept_parts n components.now parts.now)))) }
{
    let compact = layout(alloc, kind, values, Mode::Compact, parts, components)?;
    let regalign = layout(alloc, kind, values, Mode::Regalign, parts, components)?;
    let fullalign = layout(alloc, kind, values, Mode::Fullalign, parts, components)?;
    let three = ThreeLayouts {
        compact,
        regalign,
        fullalign,
    };
    Layouts::own(alloc, three)
}

/// Whether it is known that the mode makes no difference to the layouts of these instances' components.
fn are_same(parts: &[Part], components: &[Finished]) -> bool
    ensures { result ≡ true → (m : Mode) → kept_parts m components.now parts.now ≡ kept_parts Compact components.now parts.now }
{
    for part in parts {
        if let Some(finished) = part.component(components) {
            if !finished.layouts.is_same() {
                return false;
            }
        }
    }
    true
}

/// Those of a register, which has one layout if its fields have one each.
fn register_layouts(
    alloc: Global,
    values: LayoutValues,
    parts: &[Part],
    components: &[Finished],
) -> Result<Layouts, AllocError>
    requires { IsAlignment values.alignment }
    ensures { IfOk result (λ ls. (m : Mode) → under m ls ≡ capped_layout (laid_out Reg values m (map member (kept_parts m components.now parts.now)))) }
{
    if !are_same(parts, components) {
        return by_mode(alloc, Kind::Reg, values, parts, components);
    }
    let one = layout(alloc, Kind::Reg, values, Mode::Compact, parts, components)?;
    Ok(Layouts::same(one))
}

/// The layouts of a component of this kind with these values and these instances. To that of an address map or a field
/// the mode makes no difference.
pub(crate) fn layouts(
    alloc: Global,
    kind: Kind,
    values: LayoutValues,
    parts: &[Part],
    components: &[Finished],
) -> Result<Layouts, AllocError>
    requires { IsAlignment values.alignment }
    ensures { IfOk result (λ ls. (m : Mode) → let n = mode_inside kind values m in under m ls ≡ capped_layout (laid_out kind values n (map member (kept_parts n components.now parts.now)))) }
{
    match kind {
        Kind::Addrmap | Kind::Field => {
            let one = layout(alloc, kind, values, Mode::Compact, parts, components)?;
            Ok(Layouts::same(one))
        }
        Kind::Reg => register_layouts(alloc, values, parts, components),
        Kind::Regfile => by_mode(alloc, kind, values, parts, components),
    }
}

/// Whether a component of this kind with so many rows below it is one that must not be without instances.
fn is_empty(kind: Kind, rows: usize) -> bool
    ensures { result ≡ lacks_rows kind rows }
{
    match kind {
        Kind::Addrmap | Kind::Regfile => rows == 0,
        Kind::Reg | Kind::Field => false,
    }
}

/// What is below a component.
#[derive(Clone, Copy)]
pub(crate) struct Contents {
    /// The names of the longest path, at most 16.
    pub levels: usize,
    /// The rows, at most 65,536.
    pub rows: usize,
    /// Whether a register file or address map without instances may be among it.
    pub has_empty: bool,
}

impl Contents {
    ghost use Rattle.std.specs.Prelude.{◌≡◌, ◌≤◌, ◌||◌, ◌+◌, false, None, min, max};
    ghost use Rattle.rdl_elab.specs.Inside.{lacks_rows};

    /// Nothing.
    fn nothing() -> Contents
        ensures { result ≡ record { levels = 0; rows = 0; has_empty = false } }
    {
        Contents {
            levels: 0,
            rows: 0,
            has_empty: false,
        }
    }

    /// This, with one more instance of a component that is among it already, which has so many rows.
    fn again(self, rows: usize) -> Contents
        ensures { result ≡ record { levels = self.levels; rows = min (self.rows + rows) 65536; has_empty = self.has_empty } }
    {
        Contents {
            levels: self.levels,
            rows: self.rows.saturating_add(rows).min(MAX_ROWS),
            has_empty: self.has_empty,
        }
    }

    /// This, with one more instance, of this component.
    fn with(self, finished: &Finished) -> Contents
        ensures levels { result.levels ≡ min (max self.levels (finished.now.levels + 1)) 16 }
        ensures rows { result.rows ≡ min (self.rows + (finished.now.rows + 1)) 65536 }
        ensures before { result.has_empty ≡ false → self.has_empty ≡ false }
        ensures empty { result.has_empty ≡ false → lacks_rows finished.now.kind finished.now.rows ≡ false }
        ensures inside { result.has_empty ≡ false → finished.now.first_empty ≡ None }
    {
        let rows = self.rows.saturating_add(finished.rows.saturating_add(1));
        Contents {
            levels: self
                .levels
                .max(finished.levels.saturating_add(1))
                .min(MAX_LEVELS),
            rows: rows.min(MAX_ROWS),
            has_empty: self.has_empty
                || finished.first_empty.is_some()
                || is_empty(finished.kind, finished.rows),
        }
    }
}

/// The component of the instance that was counted last, and its rows with one more.
#[derive(Clone, Copy)]
struct Counted {
    number: usize,
    rows: usize,
}

/// This, with one more instance. Of a component that was counted last no more than its rows are looked at.
fn with_part(
    contents: Contents,
    last: &mut Counted,
    part: &Part,
    components: &[Finished],
) -> Contents
    requires few { contents.rows ≤ 65536 }
    requires last { IsCounted (slice_get components.now last.old.number) contents.levels contents.has_empty last.old.rows }
    ensures levels { result.levels ≡ min (max contents.levels (part_levels (slice_get components.now part.now.component))) 16 }
    ensures rows { result.rows ≡ min (contents.rows + part_rows (slice_get components.now part.now.component)) 65536 }
    ensures before { result.has_empty ≡ false → contents.has_empty ≡ false }
    ensures empty { result.has_empty ≡ false → part_empty part.now (slice_get components.now part.now.component) ≡ None }
    ensures last { IsCounted (slice_get components.now last.new.number) result.levels result.has_empty last.new.rows }
{
    if part.number() == last.number {
        return contents.again(last.rows);
    }
    let Some(finished) = part.component(components) else {
        return contents;
    };
    *last = Counted {
        number: part.number(),
        rows: finished.rows.saturating_add(1),
    };
    contents.with(finished)
}

/// What is below a component with these instances.
pub(crate) fn contents_of(parts: &[Part], components: &[Finished]) -> Contents
    ensures levels { result.levels ≡ min (kept_levels components.now parts.now) 16 }
    ensures rows { result.rows ≡ min (finished_rows components.now parts.now) 65536 }
    ensures empty { result.has_empty ≡ false → kept_empty components.now parts.now ≡ None }
{
    let mut contents = Contents::nothing();
    let mut last = Counted {
        number: components.len(),
        rows: 0,
    };
    for part in parts {
        contents = with_part(contents, &mut last, part, components);
    }
    contents
}

fn shared(address: Option<&SharedAddress>) -> Result<Option<SharedAddress>, AllocError>
    ensures { IfOk result (λ shared. shared ≡ option_copied address.entry) }
{
    match address {
        Some(address) => Ok(Some(address.share()?)),
        None => Ok(None),
    }
}

/// The instance, if its component is a register file or address map without instances, or the first such instance below
/// it.
fn empty_part(
    alloc: Global,
    part: &Part,
    finished: &Finished,
) -> Result<Option<SharedAddress>, AllocError>
    ensures { IfOk result (λ empty. empty ≡ part_empty part.now (Some finished.now)) }
{
    if is_empty(finished.kind, finished.rows) {
        Ok(Some(SharedAddress::new(alloc, part.at())?))
    } else {
        shared(finished.first_empty.as_ref())
    }
}

/// The first of these instances, or below them, of a register file or address map without instances.
#[tactic(auto, using(crate::proofs::Insides::steps))]
fn first_empty(
    alloc: Global,
    parts: &[Part],
    components: &[Finished],
) -> Result<Option<SharedAddress>, AllocError>
    ensures { IfOk result (λ empty. empty ≡ kept_empty components.now parts.now) }
{
    for part in parts {
        if let Some(finished) = part.component(components) {
            if let Some(empty) = empty_part(alloc, part, finished)? {
                return Ok(Some(empty));
            }
        }
    }
    Ok(None)
}

/// The same, where it is known whether there may be one.
pub(crate) fn first_empty_if(
    alloc: Global,
    has_empty: bool,
    parts: &[Part],
    components: &[Finished],
) -> Result<Option<SharedAddress>, AllocError>
    requires { has_empty ≡ false → kept_empty components.now parts.now ≡ None }
    ensures { IfOk result (λ empty. empty ≡ kept_empty components.now parts.now) }
{
    if has_empty {
        first_empty(alloc, parts, components)
    } else {
        Ok(None)
    }
}
