//! Words of SystemRDL 2.0 that this profile hasn't.

/// What stands for a word of SystemRDL 2.0 that the profile hasn't, if it is one.
pub fn instead_of(word: &str) -> Option<&'static str> {
    match word {
        "enum" | "encode" => Some("leave it out, and name the values in `desc`"),
        "signal" => Some("leave it out: signals have no addresses"),
        "mem" => Some(
            "an array of registers stands for a memory, as `reg { field {} data[32]; } m[64];`",
        ),
        "struct" | "property" | "constraint" => Some("leave it out"),
        "alias" => Some("an instance at the same address is refused: leave the alias out"),
        "abstract" => Some("leave it out: a definition without instances is allowed"),
        "posedge" | "negedge" | "bothedge" | "level" | "nonsticky" => {
            Some("write `intr;` alone")
        }
        "component"
        | "ref"
        | "type"
        | "this"
        | "all"
        | "number"
        | "bit"
        | "longint"
        | "boolean"
        | "string"
        | "unsigned"
        | "accesstype"
        | "addressingtype"
        | "onreadtype"
        | "onwritetype" => Some("leave it out: there are no parameters and no properties of users"),
        _ => None,
    }
}

/// Whether a property of SystemRDL 2.0 has this name that the profile hasn't.
pub fn is_other_property(name: &str) -> bool {
    is_counting(name) || is_wiring(name) || is_layout(name)
}

fn is_counting(name: &str) -> bool {
    matches!(
        name,
        "incr"
            | "incrvalue"
            | "incrwidth"
            | "incrsaturate"
            | "incrthreshold"
            | "decr"
            | "decrvalue"
            | "decrwidth"
            | "decrsaturate"
            | "decrthreshold"
            | "overflow"
            | "underflow"
            | "saturate"
            | "threshold"
    )
}

fn is_wiring(name: &str) -> bool {
    matches!(
        name,
        "next"
            | "resetsignal"
            | "hwenable"
            | "hwmask"
            | "enable"
            | "mask"
            | "haltenable"
            | "haltmask"
            | "precedence"
            | "paritycheck"
            | "sync"
            | "async"
            | "activehigh"
            | "activelow"
            | "cpuif_reset"
            | "field_reset"
            | "ispresent"
            | "encode"
    )
}

fn is_layout(name: &str) -> bool {
    matches!(
        name,
        "hdl_path"
            | "hdl_path_slice"
            | "hdl_path_gate"
            | "hdl_path_gate_slice"
            | "errextbus"
            | "sharedextbus"
            | "bridge"
            | "littleendian"
            | "bigendian"
            | "msb0"
            | "rsvdset"
            | "rsvdsetX"
            | "mementries"
            | "memwidth"
            | "signalwidth"
    )
}
