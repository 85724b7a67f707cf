//! What a receiver shows is what the store holds: laws over the store, the carousel and the receiver. No code.
ghost use Rattle.promises.specs.AirLaws.{ServiceIsShown, TextIsShown, ServiceIsTuned, MusicIsTold, TrafficIsTold};
ghost use Rattle.promises.specs.AirLaws.{NoNameIsMixed};
ghost use Rattle.promises.specs.AirLaws.{NoTextIsMixed, NoTextIsMixedOverAStart, NothingFalseIsShown, EachPassIsShown};
ghost use Rattle.promises.specs.Said.{TogglesStaySet, NoSaidTextIsMixed};

/// A service that stays is shown after 16 groups.
pub fn service_is_shown()
    ensures { ServiceIsShown }
{}

/// So is its text, after two groups for each segment, and for each empty text that a start has left.
pub fn text_is_shown()
    ensures { TextIsShown }
{}

/// What each group tells of it, PI, TP and PTY, is shown from the first group on.
pub fn service_is_tuned()
    ensures { ServiceIsTuned }
{}

/// Music or speech is told within two groups.
pub fn music_is_told()
    ensures { MusicIsTold }
{}

/// A traffic announcement is told within two groups.
pub fn traffic_is_told()
    ensures { TrafficIsTold }
{}

/// At the end of each pass over a text it is shown, whatever changes.
pub fn each_pass_is_shown()
    ensures { EachPassIsShown }
{}

/// No name is mixed, whatever changes and whatever is lost.
pub fn no_name_is_mixed()
    ensures { NoNameIsMixed }
{}

/// Where each text has its toggle set, no text is mixed.
pub fn no_text_is_mixed()
    ensures { NoTextIsMixed }
{}

/// Nor over a start of the encoder, whatever a receiver held before that hears an empty text of it.
pub fn no_text_is_mixed_over_a_start()
    ensures { NoTextIsMixedOverAStart }
{}

/// What is said in words, none of them `same`, `bits` or `raw`, and each title, keeps the toggle of each text set.
pub fn toggles_stay_set()
    ensures { TogglesStaySet }
{}

/// Where a station is said in such words, or its texts are titles, no text is mixed.
pub fn no_said_text_is_mixed()
    ensures { NoSaidTextIsMixed }
{}

/// Whatever comes damaged, nothing false is shown.
pub fn nothing_false_is_shown()
    ensures { NothingFalseIsShown }
{}
