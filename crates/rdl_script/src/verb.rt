//! The words that a line may begin with.
ghost use Rattle.std.specs.Prelude.{◌≡◌, bytes_eq, find};
ghost use Rattle.rdl_script.specs.Verbs as spec;

/// What a line asks for, by its first word.
#[derive(Clone, Copy, Debug, PartialEq, Eq)]
pub(crate) enum Verb {
    Undo,
    Redo,
    List,
    Add,
    Edit(EditVerb),
}

/// The edits but `add`.
#[derive(Clone, Copy, Debug, PartialEq, Eq)]
pub(crate) enum EditVerb {
    Remove,
    Rename,
    Move,
    Resize,
    Bits,
    Number(Part),
    Set(Sort),
    Clear(Sort),
    Assign,
    Unassign,
}

/// A part of an instance that is a number.
#[derive(Clone, Copy, Debug, PartialEq, Eq)]
pub(crate) enum Part {
    Address,
    Stride,
    Align,
    Reset,
}

/// Whether a property is the component's own or a default.
#[derive(Clone, Copy, Debug, PartialEq, Eq)]
pub(crate) enum Sort {
    Own,
    Default,
}

const VERBS: [Verb; 19] = [
    Verb::Undo,
    Verb::Redo,
    Verb::List,
    Verb::Add,
    Verb::Edit(EditVerb::Remove),
    Verb::Edit(EditVerb::Rename),
    Verb::Edit(EditVerb::Move),
    Verb::Edit(EditVerb::Resize),
    Verb::Edit(EditVerb::Bits),
    Verb::Edit(EditVerb::Number(Part::Address)),
    Verb::Edit(EditVerb::Number(Part::Stride)),
    Verb::Edit(EditVerb::Number(Part::Align)),
    Verb::Edit(EditVerb::Number(Part::Reset)),
    Verb::Edit(EditVerb::Set(Sort::Own)),
    Verb::Edit(EditVerb::Set(Sort::Default)),
    Verb::Edit(EditVerb::Clear(Sort::Own)),
    Verb::Edit(EditVerb::Clear(Sort::Default)),
    Verb::Edit(EditVerb::Assign),
    Verb::Edit(EditVerb::Unassign),
];

impl EditVerb {
    fn text(self) -> &'static str
        ensures { result.now ≡ spec.edit_text self }
    {
        match self {
            EditVerb::Remove => "remove",
            EditVerb::Rename => "rename",
            EditVerb::Move => "move",
            EditVerb::Resize => "resize",
            EditVerb::Bits => "bits",
            EditVerb::Number(Part::Address) => "address",
            EditVerb::Number(Part::Stride) => "stride",
            EditVerb::Number(Part::Align) => "align",
            EditVerb::Number(Part::Reset) => "reset",
            EditVerb::Set(Sort::Own) => "set",
            EditVerb::Set(Sort::Default) => "default",
            EditVerb::Clear(Sort::Own) => "clear",
            EditVerb::Clear(Sort::Default) => "nodefault",
            EditVerb::Assign => "assign",
            EditVerb::Unassign => "unassign",
        }
    }
}

impl Verb {
    fn text(self) -> &'static str
        ensures { result.now ≡ spec.verb_text self }
    {
        match self {
            Verb::Undo => "undo",
            Verb::Redo => "redo",
            Verb::List => "list",
            Verb::Add => "add",
            Verb::Edit(verb) => verb.text(),
        }
    }

    /// The verb that is spelled so.
    #[tactic(auto, unfolding(crate::specs::Verbs::verb_of))]
    pub(crate) fn of(word: &str) -> Option<Verb>
        ensures { result ≡ spec.verb_of word.now }
    {
        VERBS.iter().copied().find(|verb| word == verb.text())
    }
}
