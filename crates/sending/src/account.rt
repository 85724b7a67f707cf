//! How it is told what comes of messages. Source: profile.
ghost use Rattle.std.specs.Prelude.{◌≡◌};
ghost use Rattle.sending.specs.Accounts.{form_of};

use output_forms::Form;

/// How it is told what comes of messages.
#[derive(Clone, Copy, Debug)]
pub enum Account {
    /// Of each message, under its number, what the encoder answered, in this form; of those that are outstanding
    /// nothing, until they are answered or given up.
    Numbered(Form),
    /// Batch by batch, as `server` does: of each message of it the code of its reply and how many tries the batch took;
    /// or that they are outstanding.
    Batches,
}

/// In which form all else is told.
pub(crate) fn form_of(account: Account) -> Form
    ensures { result ≡ form_of account }
{
    match account {
        Account::Numbered(form) => form,
        Account::Batches => Form::Lines,
    }
}
