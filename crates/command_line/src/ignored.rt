//! The properties to ignore.
ghost use Rattle.command_line.specs.declared.comparison.ComparisonFault.{ComparisonFault};
ghost use Rattle.command_line.specs.declared.fault.WordsFault.{WordsFault};
ghost use Rattle.std.specs.Prelude.{◌≡◌, ◌⊎◌, [], ◌∷◌, ◌++◌, Some, codes, map, IfErr, IfOk, OnOk};
ghost use Rattle.clap.specs.Words.{found_of, rows_of};
ghost use Rattle.rdl_tree.specs.Properties.{property_of};
ghost use Rattle.command_line.specs.Faults.{value};
ghost use Rattle.command_line.specs.ComparisonWords.{ArePropertiesOf, IsUnknownAmong, RefusesFound, names_in};

use crate::comparison::ComparisonFault;
use clap::ArgMatches;
use rdl_tree::properties::property;
use rdl_tree::property::Property;
use std::alloc::{AllocError, Global};

/// The names of a text with commas between them.
fn names_in<'a>(alloc: Global, text: &'a str) -> Result<Vec<&'a str>, AllocError>
    ensures { IfOk result (λ names. map (λ n. n.now) names.items ≡ names_in text.now) }
{
    text.split(',').collect(alloc)
}

fn push(properties: &mut Vec<Property>, property: Property) -> Result<(), AllocError>
    ensures { OnOk result (properties.new.items ≡ properties.old.items ++ property ∷ []) }
{
    properties.push(property)?;
    Ok(())
}

/// The properties of these names.
fn properties_of(alloc: Global, names: &[&str]) -> Result<Vec<Property>, ComparisonFault>
    ensures ok { IfOk result (λ ps. map Some ps.items ≡ map (λ n. property_of n.now) names.now) }
    ensures fault { IfErr result (λ fault. (fault ≡ ComparisonFault.Words WordsFault.Memory) ⊎ ((fault ≡ ComparisonFault.BadProperty) × IsUnknownAmong (map (λ n. n.now) names.now))) }
{
    let mut properties = Vec::with_capacity(alloc, names.len())?;
    let mut rest = names;
    'names: while let [name, behind @ ..] = rest {
        match property(name) {
            Some(known) => push(&mut properties, known)?,
            None => return Err(ComparisonFault::BadProperty),
        }
        rest = behind;
    }
    Ok(properties)
}

/// The properties to ignore, of which there are none where this isn't asked.
pub(crate) fn ignored_of(
    alloc: Global,
    matches: &ArgMatches<'_>,
) -> Result<Vec<Property>, ComparisonFault>
    ensures ok { IfOk result (λ ps. ArePropertiesOf (value (codes "ignore") (rows_of (found_of matches.now))) ps.items) }
    ensures fault { IfErr result (RefusesFound (rows_of (found_of matches.now))) }
{
    let Some(text) = matches.get_str("ignore") else {
        return Ok(Vec::new(alloc));
    };
    let names = names_in(alloc, text)?;
    properties_of(alloc, names.as_slice())
}
