//! The names of the program's commands (profile).
ghost use Rattle.std.specs.Prelude.{◌≡◌, ◌≢◌, None, IfSome};
ghost use Rattle.command_line.specs.CommandLine.{command_word};

/// A command, by its name.
#[derive(Clone, Copy)]
pub(crate) enum CommandName {
    Answer,
    Show,
    Make,
    Line,
    Encoder,
    Server,
    Send,
    Watch,
    State,
    Receive,
    Conformance,
    Page,
    Quote,
    Phrases,
}

impl CommandName {
    /// The command of this name, if there is one.
    pub(crate) fn named(word: &str) -> Option<CommandName>
        ensures named { IfSome result (λ command. command_word command ≡ word.now) }
        ensures none { (command : CommandName) → result ≡ None → command_word command ≢ word.now }
    {
        match word {
            "answer" => Some(CommandName::Answer),
            "show" => Some(CommandName::Show),
            "make" => Some(CommandName::Make),
            "line" => Some(CommandName::Line),
            "encoder" => Some(CommandName::Encoder),
            "server" => Some(CommandName::Server),
            "send" => Some(CommandName::Send),
            "watch" => Some(CommandName::Watch),
            "state" => Some(CommandName::State),
            "receive" => Some(CommandName::Receive),
            "conformance" => Some(CommandName::Conformance),
            "page" => Some(CommandName::Page),
            "quote" => Some(CommandName::Quote),
            "phrases" => Some(CommandName::Phrases),
            _ => None,
        }
    }
}
