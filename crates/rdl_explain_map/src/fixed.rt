//! The numbers of refusals with their fixed texts.

use rdl_parse::fault::ParseFaultKind;
use rdl_text::fault::WordFault;
use rdl_tree::fault::FaultKind;

pub fn word_fault(fault: WordFault) -> &'static str {
    match fault {
        WordFault::BadCharacter => "S1 bad character",
        WordFault::UnendedComment => "S2 unended comment",
        WordFault::UnendedString => "S3 unended string",
        WordFault::NumberTooLarge => "S4 number over 128 bits",
        WordFault::ValueTooWide => "S5 Verilog value does not fit its width",
        WordFault::WidthOutOfRange => "S6 Verilog width out of range",
        WordFault::IdentifierTooLong => "S7 identifier too long",
        WordFault::Memory => "S8 out of memory",
    }
}

pub fn parse_fault(kind: ParseFaultKind) -> &'static str {
    match kind {
        ParseFaultKind::Words(fault) => word_fault(fault),
        ParseFaultKind::UnexpectedWord => "S9 unexpected word",
        ParseFaultKind::UnexpectedEnd => "S10 unexpected end",
        ParseFaultKind::TooDeep => "S11 nesting over 16",
        ParseFaultKind::TooLarge => "S12 description too large",
        ParseFaultKind::TooLong => "S13 text too long",
    }
}

pub fn fault(kind: FaultKind) -> &'static str {
    match kind {
        FaultKind::NameTwice => "E1 name twice",
        FaultKind::UnknownType => "E2 unknown type",
        FaultKind::KindNotAllowed => "E3 kind not allowed here",
        FaultKind::UnknownProperty => "E4 unknown property",
        FaultKind::NotOfKind => "E5 property not of this kind",
        FaultKind::WrongValue => "E6 wrong value",
        FaultKind::AssignedTwice => "E7 assigned twice",
        FaultKind::Exclusive => "E8 exclusive properties",
        FaultKind::NoSuchTarget => "E9 no such target before it",
        FaultKind::NotDynamic => "E10 property not dynamic",
        FaultKind::PartNotAllowed => "E11 part not allowed here",
        FaultKind::OutOfRange => "E12 number out of range",
        FaultKind::NoTop => "E13 no top",
        FaultKind::TooManyLevels => "E14 over 16 levels",
        FaultKind::TooManyRows => "E15 over 65536 rows",
        FaultKind::EmptyComponent => "E16 empty component",
        FaultKind::MapTooLarge => "E17 map too large",
        FaultKind::AccessTooWide => "E18 accesswidth above regwidth",
        FaultKind::StrideTooSmall => "E19 stride below size",
        FaultKind::AddressOverlap => "E20 address overlap",
        FaultKind::FieldPastRegister => "E21 field past register",
        FaultKind::FieldOverlap => "E22 field overlap",
        FaultKind::ResetTooWide => "E23 reset too wide",
        FaultKind::Memory => "E24 out of memory",
        FaultKind::DescriptionTooLarge => "E25 description too large",
    }
}
