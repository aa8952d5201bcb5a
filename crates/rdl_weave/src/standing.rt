//! How the units of a body stand to the statements of the source.

use crate::member::Member;
use crate::plan::Unit;
use std::alloc::{AllocError, Global};

/// How a unit stands to its statement, and to the order of the source.
#[derive(Clone, Copy)]
pub(crate) struct Standing {
    /// Whether no unit of the statement stands before it.
    pub(crate) is_first: bool,
    /// Whether none stands behind it.
    pub(crate) is_last: bool,
    /// Whether it has an item that no edit moved, or stands between such ones as it did.
    pub(crate) is_in_place: bool,
}

/// Whether the unit has an item of the source that no edit moved.
fn is_fixed(members: &[Member], unit: &Unit) -> bool {
    match members.get(unit.from..unit.to) {
        Some(run) => run
            .iter()
            .any(|member| member.statement.is_some() && !member.is_moved),
        None => false,
    }
}

/// Marks the statement as met. Whether it wasn't before.
fn meets(met: &mut [bool], statement: Option<usize>) -> bool {
    let Some(number) = statement else {
        return false;
    };
    match met.get_mut(number) {
        Some(place) => {
            let is_new = !*place;
            *place = true;
            is_new
        }
        None => false,
    }
}

fn unmet(alloc: Global, count: usize) -> Result<Vec<bool>, AllocError> {
    let mut met = Vec::new(alloc);
    'statements: for _ in 0..count {
        met.push(false)?;
    }
    Ok(met)
}

/// Whether the statement of the first of two units stands before that of the second.
fn is_before(statement: Option<usize>, next: Option<usize>) -> bool {
    match (statement, next) {
        (Some(number), Some(next)) => number < next,
        (Some(_), None) => true,
        (None, _) => false,
    }
}

/// How each unit stands, of a body of so many statements.
pub(crate) fn standings(
    alloc: Global,
    members: &[Member],
    units: &[Unit],
    count: usize,
) -> Result<Vec<Standing>, AllocError> {
    let mut backwards = Vec::new(alloc);
    let mut met = unmet(alloc, count)?;
    let mut fixed = None;
    'backwards: for unit in units.iter().rev() {
        let is_fixed = is_fixed(members, unit);
        backwards.push(Standing {
            is_first: false,
            is_last: meets(met.as_mut_slice(), unit.statement),
            is_in_place: is_fixed || is_before(unit.statement, fixed),
        })?;
        if is_fixed {
            fixed = unit.statement;
        }
    }
    let mut list = Vec::new(alloc);
    let mut met = unmet(alloc, count)?;
    'forwards: for (unit, standing) in units.iter().zip(backwards.iter().rev()) {
        list.push(Standing {
            is_first: meets(met.as_mut_slice(), unit.statement),
            is_last: standing.is_last,
            is_in_place: standing.is_in_place,
        })?;
    }
    Ok(list)
}
