//! The parts of instances.
ghost use Rattle.std.specs.Prelude.{◌≡◌, ℕ, ◌*◌, ◌-◌, ◌^◌, ◌&&◌, nat_le, min, Option};
ghost use Rattle.std.specs.List.{list_all};
ghost use Rattle.std.specs.Int.{is_power_of_two};
ghost use Rattle.rdl_scope.specs.ItemFaults.{is_said, wrong_part_of_kind, wrong_part, product, unless, is_range, is_size, is_field_size, are_dims, wrong_number, instance_fault};

use crate::kinds::may_instantiate;
use rdl_text::token::Number;
use rdl_tree::fault::FaultKind;
use rdl_tree::shell::{Kind, Outside, Shell};

/// The greatest address, stride and alignment.
const LIMIT: Number = 1 << 40;

/// The most elements of an array.
const MAX_ELEMENTS: Number = 1_048_576;

#[tactic(auto, unfolding(crate::specs::ItemFaults::wrong_part_of_kind))]
fn wrong_part_of_kind(kind: Kind, shell: &Shell) -> bool
    ensures { result ≡ wrong_part_of_kind kind shell.now }
{
    match kind {
        Kind::Field => {
            shell.address().is_some()
                || shell.stride().is_some()
                || shell.align().is_some()
                || shell.outside() != Outside::Unsaid
                || shell.dims().len() > 1
        }
        Kind::Addrmap | Kind::Regfile | Kind::Reg => {
            shell.range().is_some() || shell.reset().is_some()
        }
    }
}

/// Whether an instance of a component of this kind has a part that it may not have.
#[tactic(auto, unfolding(crate::specs::ItemFaults::wrong_part))]
fn wrong_part(kind: Kind, shell: &Shell) -> bool
    ensures { result ≡ wrong_part kind shell.now }
{
    let dims = shell.dims().len();
    wrong_part_of_kind(kind, shell)
        || (dims > 0 && shell.range().is_some())
        || (shell.stride().is_some() && dims == 0)
        || (shell.address().is_some() && shell.align().is_some())
        || dims > 4
}

/// How many elements an array of these sizes has, at most 2^128 - 1.
#[tactic(auto, using(crate::proofs::Products::steps))]
pub fn product(sizes: &[Number]) -> Number
    ensures { result ≡ min (product sizes.now) (2 ^ 128 - 1) }
{
    let mut elements: Number = 1;
    for size in sizes {
        elements = elements.saturating_mul(*size);
    }
    elements
}

fn is_field_size(size: Number) -> bool
    ensures { result ≡ is_field_size size }
{
    1 <= size && size <= 65536
}

fn are_field_sizes(sizes: &[Number]) -> bool
    ensures { result ≡ list_all is_field_size sizes.now }
{
    sizes.iter().all(|size| is_field_size(*size))
}

fn is_size(size: Number) -> bool
    ensures { result ≡ is_size size }
{
    1 <= size
}

fn are_sizes(sizes: &[Number]) -> bool
    ensures { result ≡ list_all is_size sizes.now }
{
    sizes.iter().all(|size| is_size(*size))
}

fn is_small(sizes: &[Number]) -> bool
    ensures { result ≡ nat_le (product sizes.now) 1048576 }
{
    product(sizes) <= MAX_ELEMENTS
}

/// Whether these may be the size of a field, or the sizes of an array.
#[tactic(auto, unfolding(crate::specs::ItemFaults::are_dims))]
fn are_dims(kind: Kind, sizes: &[Number]) -> bool
    ensures { result ≡ are_dims kind sizes.now }
{
    match kind {
        Kind::Field => are_field_sizes(sizes),
        Kind::Addrmap => are_sizes(sizes) && is_small(sizes),
        Kind::Regfile => are_sizes(sizes) && is_small(sizes),
        Kind::Reg => are_sizes(sizes) && is_small(sizes),
    }
}

fn lacks_range(range: Option<(Number, Number)>) -> bool
    ensures { result ≡ unless is_range range }
{
    match range {
        Some((high, low)) => !(low <= high && high <= 65535),
        None => false,
    }
}

fn lacks_address(address: Option<Number>) -> bool
    ensures { result ≡ unless (λ n. nat_le n (2 ^ 40)) address }
{
    match address {
        Some(number) => !(number <= LIMIT),
        None => false,
    }
}

fn lacks_stride(stride: Option<Number>) -> bool
    ensures { result ≡ unless (λ n. nat_le 1 n && nat_le n (2 ^ 40)) stride }
{
    match stride {
        Some(number) => !(1 <= number && number <= LIMIT),
        None => false,
    }
}

fn lacks_align(align: Option<Number>) -> bool
    ensures { result ≡ unless (λ n. is_power_of_two n && nat_le n (2 ^ 40)) align }
{
    match align {
        Some(number) => !(number.is_power_of_two() && number <= LIMIT),
        None => false,
    }
}

/// Whether an instance of a component of this kind has a number that it may not have.
#[tactic(auto, unfolding(crate::specs::ItemFaults::wrong_number))]
fn wrong_number(kind: Kind, shell: &Shell) -> bool
    ensures { result ≡ wrong_number kind shell.now }
{
    !are_dims(kind, shell.dims())
        || lacks_range(shell.range())
        || lacks_address(shell.address())
        || lacks_stride(shell.stride())
        || lacks_align(shell.align())
}

/// The fault of an instance, whose component is of this kind, if its type is known. `twice`: one of its name stands
/// before it.
#[tactic(auto, unfolding(crate::specs::ItemFaults::instance_fault))]
pub fn instance_fault(
    around: Option<Kind>,
    twice: bool,
    shell: &Shell,
    kind: Option<Kind>,
) -> Option<FaultKind>
    ensures { result ≡ instance_fault around twice shell.now kind }
{
    if twice {
        return Some(FaultKind::NameTwice);
    }
    let Some(kind) = kind else {
        return Some(FaultKind::UnknownType);
    };
    if !may_instantiate(around, kind) {
        Some(FaultKind::KindNotAllowed)
    } else if wrong_part(kind, shell) {
        Some(FaultKind::PartNotAllowed)
    } else if wrong_number(kind, shell) {
        Some(FaultKind::OutOfRange)
    } else {
        None
    }
}
