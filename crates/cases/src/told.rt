//! What is told of the refusals of a run, and the warnings of a map, as people read them.
use crate::case::Given;
use crate::found::top_of;
use explainer::explainer::Explainer;
use rdl_explain::explain::Names;
use rdl_run::run::{Options, run_observed};
use rdl_warn::warn::{Outlet, warnings};
use std::alloc::Global;

/// More refusals than any case has.
const MOST: usize = 1000;

/// The file of the map.
const MAP: &str = "uart.rdl";

/// The file of the script.
const SCRIPT: &str = "edits.txt";

fn explainer_of<'a>(
    alloc: Global,
    options: &'a Options,
    told: &'a mut Vec<u8>,
) -> Explainer<'a, Vec<u8>> {
    let names = Names {
        map: MAP,
        script: SCRIPT,
    };
    let top = match &options.top {
        Some(name) => Some(name.as_str()),
        None => None,
    };
    Explainer::new(alloc, names, top, MOST, told)
}

/// Tells of the refusals of a run, and answers whether it comes to its end.
fn tell(
    alloc: Global,
    mut map: &[u8],
    mut script: &[u8],
    options: &Options,
    told: &mut Vec<u8>,
) -> bool {
    let mut messages: Vec<u8> = Vec::new(alloc);
    let mut explainer = explainer_of(alloc, options, told);
    let ran = run_observed(
        alloc,
        &mut map,
        &mut script,
        options,
        &mut messages,
        &mut explainer,
    );
    let _is_odd = explainer.finish();
    match ran {
        Ok(_texts) => true,
        Err(_fault) => false,
    }
}

/// What is told of the refusals of a run on the map, if it comes to its end.
pub fn told_of(alloc: Global, map: &str, given: &Given) -> Option<Vec<u8>> {
    let options = Options {
        top: top_of(alloc, given.top).ok()?,
        history: given.history,
        session: false,
        edited: false,
    };
    let mut told = Vec::new(alloc);
    if tell(
        alloc,
        map.as_bytes(),
        given.script.as_bytes(),
        &options,
        &mut told,
    ) {
        Some(told)
    } else {
        None
    }
}

/// The warnings of a map, if there is memory for them.
pub fn warned_of(alloc: Global, map: &str) -> Option<Vec<u8>> {
    match warnings(alloc, MAP, Outlet::File, map) {
        Ok(text) => Some(text.into_bytes()),
        Err(_) => None,
    }
}
