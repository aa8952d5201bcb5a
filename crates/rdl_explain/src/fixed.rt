//! The numbers of lines that ask for nothing, with their fixed texts.

use rdl_script::request::CommandFault;

pub(crate) fn command_fault(fault: CommandFault) -> &'static str {
    match fault {
        CommandFault::Unknown => "C1 unknown command",
        CommandFault::BadOperands => "C2 bad operands",
        CommandFault::NotUtf8 => "C3 not UTF-8",
    }
}
