//! The commands of a script, with the form of each and an example.

/// A command.
#[derive(Clone, Copy)]
pub(crate) struct Usage {
    pub name: &'static str,
    /// What stands behind its name.
    pub form: &'static str,
    pub example: &'static str,
    pub operand: Operand,
}

/// What stands behind the path.
#[derive(Clone, Copy, Debug, PartialEq, Eq)]
pub(crate) enum Operand {
    /// No path either.
    Nothing,
    /// Nothing but the path.
    Path,
    PlaceAndText,
    Place,
    NewName,
    Sizes,
    Bits,
    Number,
    PropertyAndValue,
    Property,
    TargetPropertyAndValue,
    TargetAndProperty,
}

const fn command(
    name: &'static str,
    form: &'static str,
    example: &'static str,
    operand: Operand,
) -> Usage {
    Usage {
        name,
        form,
        example,
        operand,
    }
}

/// All commands.
pub(crate) const NAMES: [&str; 19] = [
    "add",
    "remove",
    "rename",
    "move",
    "resize",
    "bits",
    "address",
    "stride",
    "align",
    "reset",
    "set",
    "clear",
    "default",
    "nodefault",
    "assign",
    "unassign",
    "undo",
    "redo",
    "list",
];

/// The command of this name.
pub(crate) fn usage_of(name: &str) -> Option<Usage> {
    match of_item(name) {
        Some(usage) => Some(usage),
        None => of_property(name),
    }
}

fn of_item(name: &str) -> Option<Usage> {
    match name {
        "add" => Some(command(
            "add",
            "PATH PLACE TEXT",
            "add /$uart last reg { field {} tx[4:0]; } watermark;",
            Operand::PlaceAndText,
        )),
        "remove" => Some(command("remove", "PATH", "remove /$uart/baud", Operand::Path)),
        "rename" => Some(command(
            "rename",
            "PATH NAME",
            "rename /$uart/baud divisor",
            Operand::NewName,
        )),
        "move" => Some(command(
            "move",
            "PATH PLACE",
            "move /$uart/baud before control",
            Operand::Place,
        )),
        "resize" => Some(command(
            "resize",
            "PATH [n]",
            "resize /$dma/channels [16]",
            Operand::Sizes,
        )),
        "bits" => Some(command(
            "bits",
            "PATH [high:low]",
            "bits /$uart/control/parity [3:3]",
            Operand::Bits,
        )),
        _ => of_number(name),
    }
}

fn of_number(name: &str) -> Option<Usage> {
    match name {
        "address" => Some(command(
            "address",
            "PATH N",
            "address /$uart/baud 0x10",
            Operand::Number,
        )),
        "stride" => Some(command(
            "stride",
            "PATH N",
            "stride /$dma/channels 0x80",
            Operand::Number,
        )),
        "align" => Some(command(
            "align",
            "PATH N",
            "align /$uart/control 16",
            Operand::Number,
        )),
        "reset" => Some(command(
            "reset",
            "PATH N",
            "reset /$uart/baud/divisor 0x36",
            Operand::Number,
        )),
        _ => None,
    }
}

fn of_property(name: &str) -> Option<Usage> {
    match name {
        "set" => Some(command(
            "set",
            "PATH PROP VALUE",
            "set /$uart/control/enable sw r",
            Operand::PropertyAndValue,
        )),
        "clear" => Some(command("clear", "PATH PROP", "clear /$uart name", Operand::Property)),
        "default" => Some(command(
            "default",
            "PATH PROP VALUE",
            "default /$uart/control sw r",
            Operand::PropertyAndValue,
        )),
        "nodefault" => Some(command(
            "nodefault",
            "PATH PROP",
            "nodefault /$uart/status sw",
            Operand::Property,
        )),
        "assign" => Some(command(
            "assign",
            "PATH TARGET PROP VALUE",
            "assign /$uart enabled.tx_ready reset 1",
            Operand::TargetPropertyAndValue,
        )),
        "unassign" => Some(command(
            "unassign",
            "PATH TARGET PROP",
            "unassign /$uart enabled.overrun reset",
            Operand::TargetAndProperty,
        )),
        "undo" => Some(command("undo", "", "undo", Operand::Nothing)),
        "redo" => Some(command("redo", "", "redo", Operand::Nothing)),
        "list" => Some(command("list", "", "list", Operand::Nothing)),
        _ => None,
    }
}
