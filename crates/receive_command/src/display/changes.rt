//! What is told of a change (profile).
ghost use Rattle.std.specs.Prelude.{ℕ, List, is_some};
ghost use Rattle.uecp_text.specs.Written.{Adds};
ghost use Rattle.commands.specs.declared.receive_options.ShownForm.TheVariants.{Json};
ghost use Rattle.receive_command.specs.Told.{IsTold, AreTold};
ghost use Rattle.receive_command.specs.DisplayView.{shown_in, elements_in, IsShort};

use crate::display::news::{News, news_of, put_news};
use crate::display::objects::put_object;
use crate::display::shown::Shown;
use crate::display::times::put_time;
use commands::ShownForm;
use rds_text::Region;
use std::time::Clock;
use uecp_text::Output;

/// Adds the lines of what is told where this was shown before, and that is shown now; nothing where nothing is new.
pub fn put_change<C: Clock>(
    form: ShownForm,
    clock: Option<&C>,
    before: &Shown,
    after: &Shown,
    output: &mut Output,
)
    ensures { (lines : List ℕ) × IsTold form (is_some clock.entry) (shown_in before.now) (shown_in after.now) lines
        × Adds output.old output.new lines }
{
    match form {
        ShownForm::Words(region) => put_words(region, clock, &news_of(before, after), output),
        ShownForm::Json => put_if_changed(clock, before, after, output),
    }
}

/// Adds the time and the phrases of what is new, if anything is.
fn put_words<C: Clock>(region: Region, clock: Option<&C>, news: &News<'_>, output: &mut Output)
    requires { IsShort news.now }
    ensures { (lines : List ℕ) × AreTold region (is_some clock.entry) (elements_in news.now) lines
        × Adds output.old output.new lines }
{
    if news.is_empty() {
        return;
    }
    put_time(region, clock, output);
    put_news(region, news, output);
}

/// Adds the line of all that is shown, where that has changed.
fn put_if_changed<C: Clock>(clock: Option<&C>, before: &Shown, after: &Shown, output: &mut Output)
    ensures { (lines : List ℕ) × IsTold Json (is_some clock.entry) (shown_in before.now) (shown_in after.now) lines
        × Adds output.old output.new lines }
{
    if !before.is_same(after) {
        put_object(clock, after, output);
    }
}
