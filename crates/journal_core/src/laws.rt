//! What holds of every history, whatever its states are.
ghost use Rattle.std.specs.Prelude.{◌≡◌, ℕ, ◌+◌, ◌≤◌, List, length, take, slice_get};
ghost use Rattle.journal_core.specs.History.{History, IsHistory, after_edits, after_undos, after_redos};

/// As many steps back as there were edits lead to the first place again.
pub fn undos_lead_back<S>()
    ensures place { (h : History S) (states : List S) → IsHistory h → (after_undos (length states) (after_edits h states)).place ≡ h.place }
    ensures state { (h : History S) (states : List S) → IsHistory h → slice_get (after_undos (length states) (after_edits h states)).states h.place ≡ slice_get h.states h.place }
    ensures before { (h : History S) (states : List S) → IsHistory h → take (h.place + 1) (after_undos (length states) (after_edits h states)).states ≡ take (h.place + 1) h.states }
{}

/// As many steps on lead to the last place again.
pub fn redos_lead_on<S>()
    ensures { (h : History S) (states : List S) → IsHistory h → after_redos (length states) (after_undos (length states) (after_edits h states)) ≡ after_edits h states }
{}
