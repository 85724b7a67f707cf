//! The names of traffic flags (profile).
ghost use Rattle.std.specs.Prelude.{◌≡◌, ◌≢◌, IfSome, IfNone};
ghost use Rattle.uecp_phrases.specs.declared.traffic_name.TrafficName.{TrafficName};
ghost use Rattle.uecp_phrases.specs.Reading.{traffic_word};

/// Traffic flags by name.
#[derive(Clone, Copy, Debug)]
pub enum TrafficName {
    /// Neither TP nor TA.
    None,
    /// TA alone: this programme has none itself, and EON tells of one that has.
    Eon,
    /// TP alone: a programme that gives announcements.
    Programme,
    /// TP and TA: an announcement is on the air.
    Announcement,
}

/// The flags that a word names, if any.
pub fn traffic_name_of(word: &[u8]) -> Option<TrafficName>
    ensures known { IfSome result (λ name. word.now ≡ traffic_word name) }
    ensures unknown { IfNone result ((name : TrafficName) → word.now ≢ traffic_word name) }
{
    match word {
        b"none" => Some(TrafficName::None),
        b"eon" => Some(TrafficName::Eon),
        b"programme" => Some(TrafficName::Programme),
        b"announcement" => Some(TrafficName::Announcement),
        _ => None,
    }
}
