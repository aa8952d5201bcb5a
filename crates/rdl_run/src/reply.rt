//! What a line of a script is answered.
ghost use Rattle.std.specs.Prelude.{◌≡◌, ◌++◌, ◌+◌, ◌<◌, ◌^◌, string_bytes, IfOk, OnOk};
ghost use Rattle.rdl_run.specs.Answers.{is_refused};
ghost use Rattle.rdl_run.specs.Replies.{said};
ghost use Rattle.rdl_run.specs.Messages.{
  words_fault_text,
  parse_fault_text,
  fault_text,
  command_fault_text,
  refusal_head,
  refusal_text,
  add_column,
  text_refusal_text,
  line_refusal_text,
  reply_text,
  map_line,
};

use rdl_edit::refusal::Refusal;
use rdl_parse::fault::{ParseFault, ParseFaultKind};
use rdl_script::request::CommandFault;
use rdl_text::fault::WordFault;
use rdl_text::token::Number;
use rdl_tree::fault::FaultKind;
use rdl_write::push_decimal;
use std::alloc::{AllocError, Global};

/// Why a line is refused.
#[derive(Debug, Drop)]
pub enum LineRefusal {
    /// C1 to C3.
    Command(CommandFault),
    /// C4: the text of an `add` has this fault.
    Text(ParseFault),
    /// The map refuses the edit.
    Edit(Refusal),
    /// J1.
    HistoryFull,
    /// J2.
    NothingToUndo,
    /// J3.
    NothingToRedo,
}

/// What a line is answered.
#[derive(Debug, Drop)]
pub enum Reply {
    /// It was done, and there is nothing to say.
    Done,
    /// The lines of `list`.
    Listed(String),
    Refused(LineRefusal),
}

impl Reply {
    pub fn is_refused(&self) -> bool
        ensures { result ≡ is_refused (said self.now) }
    {
        matches!(self, Reply::Refused(_))
    }
}

fn words_fault_text(fault: WordFault) -> &'static str
    ensures { result.now ≡ words_fault_text fault }
{
    match fault {
        WordFault::BadCharacter => "S1 bad character",
        WordFault::UnendedComment => "S2 unended comment",
        WordFault::UnendedString => "S3 unended string",
        WordFault::NumberTooLarge => "S4 number over 128 bits",
        WordFault::ValueTooWide => "S5 Verilog value does not fit its width",
        WordFault::WidthOutOfRange => "S6 Verilog width out of range",
        WordFault::IdentifierTooLong => "S7 identifier too long",
        WordFault::Memory => "",
    }
}

/// The text of a fault of a text.
#[tactic(auto, unfolding(crate::specs::Messages::parse_fault_text))]
pub fn parse_fault_text(kind: ParseFaultKind) -> &'static str
    ensures { result.now ≡ parse_fault_text kind }
{
    match kind {
        ParseFaultKind::Words(fault) => words_fault_text(fault),
        ParseFaultKind::UnexpectedWord => "S9 unexpected word",
        ParseFaultKind::UnexpectedEnd => "S10 unexpected end",
        ParseFaultKind::TooDeep => "S11 nesting over 16",
        ParseFaultKind::TooLarge => "S12 description too large",
        ParseFaultKind::TooLong => "S13 text too long",
    }
}

/// The text of a fault of a map.
#[tactic(auto, unfolding(crate::specs::Messages::fault_text))]
pub fn fault_text(kind: FaultKind) -> &'static str
    ensures { result.now ≡ fault_text kind }
{
    match kind {
        FaultKind::NameTwice => "E1 name twice",
        FaultKind::UnknownType => "E2 unknown type",
        FaultKind::KindNotAllowed => "E3 kind not allowed here",
        FaultKind::UnknownProperty => "E4 unknown property",
        FaultKind::NotOfKind => "E5 property not of this kind",
        FaultKind::WrongValue => "E6 wrong value",
        FaultKind::AssignedTwice => "E7 assigned twice",
        FaultKind::Exclusive => "E8 exclusive properties",
        FaultKind::NoSuchTarget => "E9 no such target before it",
        FaultKind::NotDynamic => "E10 property not dynamic",
        FaultKind::PartNotAllowed => "E11 part not allowed here",
        FaultKind::OutOfRange => "E12 number out of range",
        FaultKind::NoTop => "E13 no top",
        FaultKind::TooManyLevels => "E14 over 16 levels",
        FaultKind::TooManyRows => "E15 over 65536 rows",
        FaultKind::EmptyComponent => "E16 empty component",
        FaultKind::MapTooLarge => "E17 map too large",
        FaultKind::AccessTooWide => "E18 accesswidth above regwidth",
        FaultKind::StrideTooSmall => "E19 stride below size",
        FaultKind::AddressOverlap => "E20 address overlap",
        FaultKind::FieldPastRegister => "E21 field past register",
        FaultKind::FieldOverlap => "E22 field overlap",
        FaultKind::ResetTooWide => "E23 reset too wide",
        FaultKind::Memory => "",
        FaultKind::DescriptionTooLarge => "E25 description too large",
    }
}

#[tactic(auto, unfolding(crate::specs::Messages::command_fault_text))]
fn command_fault_text(fault: CommandFault) -> &'static str
    ensures { result.now ≡ command_fault_text fault }
{
    match fault {
        CommandFault::Unknown => "C1 unknown command",
        CommandFault::BadOperands => "C2 bad operands",
        CommandFault::NotUtf8 => "C3 not UTF-8",
    }
}

#[tactic(auto, unfolding(crate::specs::Messages::refusal_head))]
fn refusal_head(refusal: &Refusal) -> &'static str
    ensures { result.now ≡ refusal_head refusal.now }
{
    match refusal {
        Refusal::NoSuchPath => "X1 no such path: P1 no such name",
        Refusal::ThroughNamedType => "X1 no such path: P2 through a named type",
        Refusal::NoSuchSibling => "X2 no such sibling",
        Refusal::NameTaken => "X3 name taken",
        Refusal::Reserved => "X4 reserved name",
        Refusal::InUse => "X5 definition in use",
        Refusal::NotSet => "X6 not set",
        Refusal::NotAnInstance => "X7 not an instance",
        Refusal::NotAddable => "X8 only definitions and instances are added",
        Refusal::Faulty(_) => "X9 the edited map has a fault: ",
        Refusal::Memory => "",
    }
}

#[tactic(auto, unfolding(crate::specs::Messages::refusal_text))]
fn push_refusal(text: &mut String, refusal: &Refusal) -> Result<(), AllocError>
    ensures { OnOk result (string_bytes text.new ≡ string_bytes text.old ++ refusal_text refusal.now) }
{
    text.push_str(refusal_head(refusal))?;
    if let Refusal::Faulty(fault) = refusal {
        text.push_str(fault_text(fault.kind))?;
        write!(text, " at item {}", fault.address)?;
    }
    Ok(())
}

fn add_column(offset: usize) -> usize
    ensures { result ≡ add_column offset }
{
    offset.saturating_add(1)
}

#[tactic(auto, unfolding(crate::specs::Messages::text_refusal_text))]
fn push_text_refusal(text: &mut String, fault: ParseFault) -> Result<(), AllocError>
    ensures { OnOk result (string_bytes text.new ≡ string_bytes text.old ++ text_refusal_text fault) }
{
    text.push_str("C4 text refused: ")?;
    text.push_str(parse_fault_text(fault.kind))?;
    text.push_str(" at column ")?;
    push_decimal(text, add_column(fault.offset) as Number)?;
    Ok(())
}

#[tactic(auto, unfolding(crate::specs::Messages::line_refusal_text))]
fn push_line_refusal(text: &mut String, refusal: &LineRefusal) -> Result<(), AllocError>
    ensures { OnOk result (string_bytes text.new ≡ string_bytes text.old ++ line_refusal_text refusal.now) }
{
    match refusal {
        LineRefusal::Command(fault) => text.push_str(command_fault_text(*fault)),
        LineRefusal::Text(fault) => push_text_refusal(text, *fault),
        LineRefusal::Edit(refusal) => push_refusal(text, refusal),
        LineRefusal::HistoryFull => text.push_str("J1 history full"),
        LineRefusal::NothingToUndo => text.push_str("J2 nothing to undo"),
        LineRefusal::NothingToRedo => text.push_str("J3 nothing to redo"),
    }
}

/// Appends the message of a line of the script, which counts from 1.
#[tactic(auto, unfolding(crate::specs::Messages::reply_text))]
pub fn push_reply(text: &mut String, number: usize, reply: &Reply) -> Result<(), AllocError>
    ensures { OnOk result (string_bytes text.new ≡ string_bytes text.old ++ reply_text number (said reply.now)) }
{
    match reply {
        Reply::Done => Ok(()),
        Reply::Listed(lines) => text.push_str(lines.as_str()),
        Reply::Refused(refusal) => {
            write!(text, "script:{number}: ")?;
            push_line_refusal(text, refusal)?;
            text.push_str("\n")
        }
    }
}

/// The message of a map that is refused.
pub fn map_line(alloc: Global, place: (usize, usize), what: &str) -> Result<String, AllocError>
    ensures { IfOk result (λ text. string_bytes text ≡ map_line place.0 place.1 what.now) }
{
    let mut text = String::new(alloc);
    let (line, column) = place;
    write!(text, "map:{line}:{column}: {what}\n")?;
    Ok(text)
}
