//! An element as a line (profile).
ghost use Rattle.store_phrases.specs.Said.{line};

use crate::form::ElementForm;
use phrase_tokens::put_tokens;
use rds_text::Region;
use uecp_elements::Element;
use uecp_phrases::phrase_of;
use uecp_text::Output;

/// Each element as a line: its phrase, as the region calls programme types.
#[derive(Clone, Copy)]
pub(crate) struct Lines {
    /// The region.
    pub(crate) region: Region,
}

impl ElementForm for Lines {
    type Out = Output;

    ghost kept = { λ output. output };

    ghost bytes = { λ lines. line lines.region };

    #[tactic(auto, unfolding(crate::specs::Said::line))]
    fn put(&self, element: &Element<'_>, output: &mut Output) {
        put_tokens(phrase_of(self.region, element).as_slice(), output);
        output.end();
    }
}
