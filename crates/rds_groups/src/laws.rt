//! What the check words find, how groups read, what is heard of one, and what is found in a stream of bits and in bits
//! as text: each law the contract of a function that does nothing.
ghost use Rattle.rds_groups.specs.Laws.{ReadsBack, IsTold, OneIsFound, TwoAreFound, BurstIsFound};
ghost use Rattle.rds_groups.specs.Laws.{GroupsRead, SegmentsRead};
ghost use Rattle.rds_groups.specs.ReceiverLaws.{ComesWhole, NoWordIsWrong, BeginsAnew, OneChangesNothing};
ghost use Rattle.rds_groups.specs.SynchroniserLaws.{EachGroupIsFound, StepIsKept, LinesReadBack, TextIsItsBits};
ghost use Rattle.rds_groups.specs.SynchroniserLaws.{TextsAddUp, WindowsAreJudged, StepIsLost};

/// A block reads back as its word.
#[tactic(auto, using(crate::proofs::Found::reads_back))]
pub fn reads_back()
    ensures { ReadsBack }
{}

/// A block with one offset word is no block with another.
#[tactic(auto, using(crate::proofs::Found::is_told))]
pub fn is_told()
    ensures { IsTold }
{}

/// A wrong bit is found.
#[tactic(auto, using(crate::proofs::Found::one_is_found))]
pub fn one_is_found()
    ensures { OneIsFound }
{}

/// Two wrong bits are found.
#[tactic(auto, using(crate::proofs::Found::two_are_found))]
pub fn two_are_found()
    ensures { TwoAreFound }
{}

/// Wrong bits that lie within ten in a row are found, however many.
#[tactic(auto, using(crate::proofs::Found::burst_is_found))]
pub fn burst_is_found()
    ensures { BurstIsFound }
{}

/// A group of a kind reads as that kind, with the head and the bits that it was made of.
#[tactic(auto, using(crate::proofs::GroupProofs::groups_read))]
pub fn groups_read()
    ensures { GroupsRead }
{}

/// The last five bits of a group of type 0 read as TA, MS, the bit of decoder identification and the segment.
#[tactic(auto, using(crate::proofs::GroupProofs::segments_read))]
pub fn segments_read()
    ensures { SegmentsRead }
{}

/// A group that comes as it went out comes whole.
#[tactic(auto, using(crate::proofs::ReceiverReading::comes_whole))]
pub fn comes_whole()
    ensures { ComesWhole }
{}

/// Where in each block no bit is wrong, one, two, or some of ten in a row, each word comes as it is or is missing.
pub fn no_word_is_wrong()
    ensures { NoWordIsWrong }
{}

/// Two groups of another station, one behind the other, and a receiver has heard nothing but these.
pub fn begins_anew()
    ensures { BeginsAnew }
{}

/// One alone is as if nothing had come.
pub fn one_changes_nothing()
    ensures { OneChangesNothing }
{}

/// A group that comes as it went out is found with its last bit, whatever came before.
pub fn each_group_is_found()
    ensures { EachGroupIsFound }
{}

/// Once a group was found, what comes of the next one is given with its last bit, however much of it is wrong.
pub fn step_is_kept()
    ensures { StepIsKept }
{}

/// Behind a whole group, where no other comes, a step is lost exactly where a window has too many wrong blocks.
pub fn step_is_lost()
    ensures { StepIsLost }
{}

/// So it is of blocks that are counted from the beginning of a window on.
pub fn windows_are_judged()
    ensures { WindowsAreJudged }
{}

/// The line of a group reads as its bits.
#[tactic(auto, using(crate::proofs::SynchroniserReading::lines_read_back))]
pub fn lines_read_back()
    ensures { LinesReadBack }
{}

/// A text brings what its bits bring: characters that are no bits make no difference.
#[tactic(auto, using(crate::proofs::SynchroniserReading::text_is_its_bits))]
pub fn text_is_its_bits()
    ensures { TextIsItsBits }
{}

/// A text in two parts has the groups of the first, and then those of the second, wherever it is cut.
#[tactic(auto, using(crate::proofs::SynchroniserReading::texts_add_up))]
pub fn texts_add_up()
    ensures { TextsAddUp }
{}
