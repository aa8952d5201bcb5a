//! Words that SystemRDL 2.0 reserves, and this profile doesn't.

/// Words of types, of values and of interrupts.
fn is_keyword(name: &str) -> bool {
    matches!(
        name,
        "accesstype"
            | "addressingtype"
            | "all"
            | "bit"
            | "boolean"
            | "bothedge"
            | "component"
            | "componentwidth"
            | "inside"
            | "level"
            | "longint"
            | "negedge"
            | "nonsticky"
            | "number"
            | "onreadtype"
            | "onwritetype"
            | "posedge"
            | "r"
            | "ref"
            | "string"
            | "this"
            | "type"
            | "unsigned"
            | "w"
    )
}

/// Words that the standard keeps for later versions.
fn is_kept_for_later(name: &str) -> bool {
    matches!(
        name,
        "alternate"
            | "byte"
            | "int"
            | "precedence"
            | "real"
            | "shortint"
            | "shortreal"
            | "signed"
            | "with"
            | "within"
    )
}

/// Whether a name of this profile is a keyword of SystemRDL 2.0. Those are of small letters alone.
pub(crate) fn is_keyword_elsewhere(name: &str) -> bool {
    let is_small = name.as_bytes().iter().all(|byte| byte.is_ascii_lowercase());
    is_small && (is_keyword(name) || is_kept_for_later(name))
}
