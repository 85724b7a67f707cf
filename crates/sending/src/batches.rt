//! What is told of messages that are answered: of each under its number, or batch by batch. Source: profile.
ghost use Rattle.std.specs.Prelude.{◌≡◌, ◌+◌, ◌^◌, ◌<◌, ℕ, List, length};
ghost use Rattle.uecp_text.specs.Written.{Adds};
ghost use Rattle.sending.specs.Accounts.{AreReplies, AreHeld};

use crate::account::Account;
use crate::forms::{put_held_in, put_replies_in};
use crate::sent::Sent;
use std::time::Clock;
use uecp_jobs::put_settled;
use uecp_net::Settled;
use uecp_text::Output;

/// Puts down the answers to these messages, each sent under its counter since then, that were settled so, the first of
/// which has this number.
pub(crate) fn put_replies_by<T: Clock>(
    account: Account,
    clock: &T,
    since: u64,
    first: u64,
    sent: &[Sent],
    settled: &Settled,
    output: &mut Output,
)
    requires countable { first + length settled.now.codes.items < 2 ^ 64 }
    ensures { (told : List ℕ) × AreReplies account first sent.now settled.now told
        × Adds output.old output.new told }
{
    match account {
        Account::Numbered(form) => put_replies_in(form, clock, since, first, sent, settled, output),
        Account::Batches => put_settled(settled, output),
    }
}

/// Puts down the answers to messages that were held, of which the first has this number: those that are not marked are
/// these, which waited each under its counter, were sent since then and settled so.
pub(crate) fn put_held_by<T: Clock>(
    account: Account,
    clock: &T,
    since: u64,
    first: u64,
    marks: &[bool],
    sent: &[Sent],
    settled: &Settled,
    output: &mut Output,
)
    requires countable { first + length marks.now < 2 ^ 64 }
    ensures { (told : List ℕ) × AreHeld account first marks.now sent.now settled.now told
        × Adds output.old output.new told }
{
    match account {
        Account::Numbered(form) => {
            put_held_in(form, clock, since, first, marks, sent, settled, output);
        }
        Account::Batches => put_settled(settled, output),
    }
}
