//! Laws of the definitions, each the contract of a function that does nothing (profile).
ghost use Rattle.std.specs.Prelude.{◌≡◌, ◌-◌, ◌++◌, ◌∷◌, ℕ, List, true, Bool, Some, None};
ghost use Rattle.uecp_frame.specs.Findings.{Finding, OpenPart};
ghost use Rattle.uecp_frame.specs.Beyond.{found_beyond, open_beyond};
ghost use Rattle.live_edges.specs.Awaited.{Replies, NoneAnswers, IsAnswer, heard_all, heard_of};
ghost use Rattle.live_edges.specs.Said.{Said, IsNews, noted, noted_all, AllSameWords};
ghost use Rattle.live_edges.specs.declared.said.Notice.{Notice};
ghost use Rattle.live_edges.specs.declared.patience.Patience.{Patience};
ghost use Rattle.live_edges.specs.declared.patience.Wait.{Wait};
ghost use Rattle.live_edges.specs.Waiting.{IsGivenUp, IsLate, IsReached};
ghost use Rattle.live_edges.specs.Waiting.{Happening, after_all};

/// Noise, frames of others and replies to what does not wait answer nothing, and leave all waiting that waits.
#[tactic(auto, using(crate::proofs::Answering::none_answers_lem))]
pub fn none_answers()
    ensures { (address : ℕ) (o : OpenPart) (r : Replies) (bytes : List ℕ)
        → NoneAnswers address r.waits (found_beyond o bytes) → heard_of address o r bytes ≡ r }
{}

/// A reply to one that waits is heard, whatever came before it that answers nothing, and whatever comes behind it.
#[tactic(auto, using(crate::proofs::Answering::an_answer_lem))]
pub fn an_answer_counts()
    ensures { (address : ℕ) (r : Replies) (before : List Finding) (f : Finding) (after : List Finding)
        → NoneAnswers address r.waits before → IsAnswer address r.waits f
        → (heard_all address r (before ++ f ∷ after)).came ≡ true }
{}

/// However the bytes are cut into pieces that comes to the same.
#[tactic(auto, using(crate::proofs::Answering::in_pieces_lem))]
pub fn in_pieces()
    ensures { (address : ℕ) (o : OpenPart) (r : Replies) (x y : List ℕ)
        → heard_of address o r (x ++ y) ≡ heard_of address (open_beyond o x) (heard_of address o r x) y }
{}

/// A notice that was said is not news again, whatever else is said, until a reply comes: but where its words change.
#[tactic(auto, using(crate::proofs::Saying::said_once_lem))]
pub fn said_once()
    ensures { (s : Said) (notice : Notice) (since : List Notice) → AllSameWords notice since
        → IsNews (noted_all (noted s notice) since) notice → ⊥ }
{}

/// Where nothing has waited since the last reply, no line is given up and no connection is late, whatever the time.
#[tactic(auto, using(crate::proofs::Waiting::never_given_up_lem, crate::proofs::Waiting::never_late_lem))]
pub fn nothing_waiting_never_gives_up()
    ensures given_up { (p : Patience) (now : ℕ) (w : Wait) → w.since ≡ None → (IsReached p.give_up 0 → ⊥)
        → IsGivenUp p now w → ⊥ }
    ensures late { (p : Patience) (now : ℕ) (w : Wait) → w.since ≡ None → IsLate p now w → ⊥ }
{}

/// Time counts from where something began to wait, whatever comes, until a reply does: by then the connection is late,
/// however often one was made, used, lost or not to be had.
pub fn only_a_reply_gives_time()
    ensures { (p : Patience) (since now : ℕ) (w : Wait) (between : List Happening) → w.since ≡ Some since
        → IsReached p.give_up (now - since) → IsLate p now (after_all between w) }
{}
