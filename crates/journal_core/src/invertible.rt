//! What the history asks of the object that it keeps.
ghost use Rattle.std.specs.Prelude.{◌≡◌, IfOk, IfErr, OnOk, OnErr};

use std::alloc::Global;

/// An object whose accepted changes can be taken back.
pub trait Invertible {
    type Change;

    type Back: Drop;

    type Refusal;

    type State;

    /// What a contract knows of the object.
    ghost state: { Self → Self.State };

    /// The state to which a step back leads.
    ghost prior: { Self.State → Self.Back → Self.State };
    /// A step back can be taken there.
    ghost fits: { Self.State → Self.Back → Type 0 };
    /// A step back that a change made of this object leaves there, or that takes such a step back.
    ghost own: { Self.State → Self.Back → Type 0 };
    /// A step back that such a change leaves, made at the first state.
    ghost leaves: { Self.State → Self.Change → Self.Back → Type 0 };
    /// Where the first step is taken there, the second leads forward again.
    ghost turns: { Self.State → Self.Back → Self.Back → Type 0 };
    /// A change may lead from the first state to the second.
    ghost leads: { Self.State → Self.Change → Self.State → Type 0 };
    /// A change may be refused there, in this way.
    ghost refuses: { Self.State → Self.Change → Self.Refusal → Type 0 };

    /// Makes a change, and answers the step back.
    fn apply(&mut self, alloc: Global, change: &Self::Change) -> Result<Self::Back, Self::Refusal>
        ensures leads { OnOk result (leads (state self.old) change.now (state self.new)) }
        ensures fits { IfOk result (λ back. fits (state self.new) back) }
        ensures own { IfOk result (λ back. own (state self.new) back) }
        ensures back { IfOk result (λ back. prior (state self.new) back ≡ state self.old) }
        ensures leaves { IfOk result (λ back. leaves (state self.old) change.now back) }
        ensures refused { IfErr result (λ refusal. refuses (state self.old) change.now refusal) }
        ensures err { OnErr result (state self.new ≡ state self.old) };

    /// Takes a step back, and answers the step that leads forward again. Only memory can be refused, and then the
    /// step is handed over again.
    fn revert(&mut self, alloc: Global, back: Self::Back) -> Result<Self::Back, Self::Back>
        requires { fits (state self.old) back }
        ensures leads { OnOk result (state self.new ≡ prior (state self.old) back) }
        ensures fits { IfOk result (λ forward. fits (state self.new) forward) }
        ensures own { IfOk result (λ forward. own (state self.old) back → own (state self.new) forward) }
        ensures back { IfOk result (λ forward. prior (state self.new) forward ≡ state self.old) }
        ensures turns { IfOk result (λ forward. turns (state self.old) back forward) }
        ensures handed { IfErr result (λ same. same ≡ back) }
        ensures err { OnErr result (state self.new ≡ state self.old) };
}
