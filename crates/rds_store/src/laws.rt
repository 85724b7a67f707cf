//! Laws of a store under elements, messages and takes, each the contract of a function that does nothing.
ghost use Rattle.rds_store.specs.Laws.{RefusalChangesNothing, ChangesNamedPlacesAlone, KeepsSelectionAndGroups};
ghost use Rattle.rds_store.specs.Laws.{KeepsSetsAndServices, MessagesKeepSetsAndServices, RefusedMessageChangesNothing};
ghost use Rattle.rds_store.specs.Laws.{AppliedMessageIsWhole, WholeMessageIsApplied, EmptyMessageChangesNothing};
ghost use Rattle.rds_store.specs.Laws.{GroupsGoOutInOrder, IsKnownByPlaces};

/// An element that is answered with another code than 00 leaves the store as it was.
#[tactic(auto, using(crate::proofs::LawProofs::refusal_changes_nothing))]
pub fn refusal_changes_nothing()
    ensures { RefusalChangesNothing }
{}

/// After an element each place that it names has taken its content if the code is 00, and each other place has what
/// it had.
#[tactic(auto, using(crate::proofs::LawProofs::changes_named_places_alone))]
pub fn changes_named_places_alone()
    ensures { ChangesNamedPlacesAlone }
{}

/// An element that names places keeps the current set and the groups.
#[tactic(auto, using(crate::proofs::LawProofs::keeps_selection_and_groups))]
pub fn keeps_selection_and_groups()
    ensures { KeepsSelectionAndGroups }
{}

/// No element changes how many sets there are, or which services.
#[tactic(auto, using(crate::proofs::LawProofs::keeps_sets_and_services))]
pub fn keeps_sets_and_services()
    ensures { KeepsSetsAndServices }
{}

/// No message changes how many sets there are, or which services.
#[tactic(auto, using(crate::proofs::LawProofs::messages_keep_sets_and_services))]
pub fn messages_keep_sets_and_services()
    ensures { MessagesKeepSetsAndServices }
{}

/// A message that is answered with another code than 00 leaves every place, the current set and the groups as they
/// were.
#[tactic(auto, using(crate::proofs::MessageLaws::refused_message_changes_nothing))]
pub fn refused_message_changes_nothing()
    ensures { RefusedMessageChangesNothing }
{}

/// A message that is answered with 00 reads to its end, and each of its elements was put in order, with code 00.
pub fn applied_message_is_whole()
    ensures { AppliedMessageIsWhole }
{}

/// A message that reads to its end, and whose elements, put in order, each have code 00, is answered with 00 and leaves
/// what they leave.
pub fn whole_message_is_applied()
    ensures { WholeMessageIsApplied }
{}

/// A message with no byte is answered with 00, and changes nothing.
#[tactic(auto, using(crate::proofs::MessageLaws::empty_message_changes_nothing))]
pub fn empty_message_changes_nothing()
    ensures { EmptyMessageChangesNothing }
{}

/// The groups that wait go out in the order in which they wait, and nothing else changes; then there is none to go out.
#[tactic(auto, using(crate::proofs::LawProofs::groups_go_out_in_order))]
pub fn groups_go_out_in_order()
    ensures { GroupsGoOutInOrder }
{}

/// Two stores that have the same at each place have the same data.
#[tactic(auto, using(crate::proofs::LawProofs::is_known_by_places))]
pub fn is_known_by_places()
    ensures { IsKnownByPlaces }
{}
