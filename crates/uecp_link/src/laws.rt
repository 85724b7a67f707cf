//! Laws of the definitions, each the contract of a function that does nothing.
ghost use Rattle.std.specs.Prelude.{◌≡◌, List, ℕ};
ghost use Rattle.std.specs.List.{AllByRecursion};
ghost use Rattle.uecp_elements.specs.declared.code.Code.{Code};
ghost use Rattle.uecp_frame.specs.Findings.{Closed};
ghost use Rattle.uecp_encoder.specs.State.{EncoderState};
ghost use Rattle.uecp_encoder.specs.Target.{Taken};
ghost use Rattle.uecp_link.specs.Joining.{JoinsOverALine, WholePassBringsBoth};
ghost use Rattle.uecp_link.specs.Kept.{IsReady};
ghost use Rattle.uecp_link.specs.Law.{Law, LawFrom, NumbersLaw, Fits};
ghost use Rattle.uecp_link.specs.Holds.{LineState, Outcome, Plays, history_by, line_from, new_line};
ghost use Rattle.uecp_link.specs.Once.{Event, Once, at_first};
ghost use Rattle.uecp_link.specs.Headline.{IsHeadline};
ghost use Rattle.uecp_link.specs.Using.{IsDone, after_all_come};
ghost use Rattle.uecp_link.specs.Damage.{DamageChangesNothing};

use uecp_encoder::Target;

/// The law of numbers: over every list of line events, whatever the codes of the messages are and whatever a take does,
/// counters and kept replies never confuse two messages.
pub fn numbers()
    ensures { (address : ℕ) (code : List (List ℕ) → List ℕ → Code) (taken : Taken (List (List ℕ))) (events : List Event)
        → AllByRecursion Fits events → NumbersLaw code taken address events }
{}

/// The law of numbers and values: over every list of line events the two ends do what the once-machine does.
pub fn once_and_in_order<T: Target>()
    ensures { (address : ℕ) (opening : _) (events : List Event) → AllByRecursion Fits events
        → Law T.step T.taken address opening events }
{}

/// Any list of steps from a new line keeps the headline, whatever the steps answered, with the history that their
/// answers tell.
pub fn steps_keep_the_headline<T: Target>()
    ensures { (address : ℕ) (opening : _) (events : List Event) (outcomes : List Outcome) (line : LineState T)
        (o : Once T) → Plays T.step T.taken (new_line address opening) (at_first opening) events outcomes line o
        → IsHeadline T.step T.taken address opening (history_by events outcomes) line }
{}

/// And so does any list of steps from a line of a new server and an encoder that is there, where that has nothing open
/// and keeps nothing, or the replies to FF .. 81 alone, as one that has joined does.
pub fn steps_keep_the_headline_from<T: Target>()
    ensures { (e : EncoderState T) → IsReady e.ring → e.part ≡ Closed
        → (events : List Event) (outcomes : List Outcome) (line : LineState T) (o : Once T)
        → Plays T.step T.taken (line_from e) (at_first e.value) events outcomes line o
        → IsHeadline T.step T.taken e.address e.value (history_by events outcomes) line }
{}

/// The law of numbers and values from such an encoder.
pub fn once_and_in_order_from<T: Target>()
    ensures { (e : EncoderState T) → IsReady e.ring → e.part ≡ Closed → (events : List Event)
        → AllByRecursion Fits events → LawFrom T.step T.taken e events }
{}

/// Both directions of one connection, each of which keeps its order and loses nothing but its end. A pass, whole or
/// behind whatever counter, comes to an encoder that has nothing open and at whose target an empty message changes
/// nothing, whatever happened to it before, and its replies come back, each as far as it may. Once the reply to 81 was
/// read and after it the reply to FF, no frame of the pass and no reply is still to come, nothing is open at either
/// end, and the encoder has its target as it was, keeps the replies to 81 .. FF and no other, and expects 01.
pub fn joined_over_a_line<T: Target>()
    ensures { JoinsOverALine T.step }
{}

/// Where nothing is lost on this connection, the replies to one pass hold both, from wherever the encoder was.
pub fn whole_pass_brings_both<T: Target>()
    ensures { WholePassBringsBoth T.step }
{}

/// From every state that a line can be in, where nothing is lost any more: once the frame of each message that is
/// outstanding has come, the oldest first, and the reply to each, every message that was sent is acknowledged, and the
/// server is idle.
pub fn acknowledged_where_nothing_is_lost<T: Target>()
    ensures { (address : ℕ) (opening : _) (events : List Event) → AllByRecursion Fits events
        → IsDone (after_all_come T.step T.taken address opening events) }
{}

/// Bytes in which no frame is found, whatever part is open before them, leave a server its outstanding messages, its
/// last counter and its counts but that of the dropped segments, which rises by one for each segment that they end.
pub fn damage_changes_nothing()
    ensures { DamageChangesNothing }
{}
