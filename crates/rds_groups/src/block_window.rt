//! Whether a step is still right. Source: IEC 62106, group and block synchronisation.
ghost use Rattle.std.specs.Prelude.{◌≡◌};
ghost use Rattle.rds_groups.specs.Sync as sync;

use crate::heard::HeardGroup;

/// A window of 50 blocks of a step: where at least 35 of them come wrong the step is lost.
#[derive(Clone, Copy, Debug, PartialEq, Eq)]
pub struct BlockWindow {
    /// How many of its blocks are still to come.
    pub blocks: u8,
    /// How many more wrong ones lose the step.
    pub wrong: u8,
}

impl BlockWindow {
    /// A window begins.
    pub fn new() -> BlockWindow
        ensures { result ≡ sync.new_window }
    {
        BlockWindow {
            blocks: 50,
            wrong: 35,
        }
    }

    /// The window behind the four blocks of a group; None where the step is lost.
    pub fn after_group(self, heard: &HeardGroup) -> Option<BlockWindow>
        ensures { result ≡ sync.blocks_counted (sync.words_of heard.now) self }
    {
        let window = self.after_block(heard.block1)?;
        let window = window.after_block(heard.block2)?;
        let window = window.after_block(heard.block3)?;
        window.after_block(heard.block4)
    }

    /// The window behind one more block, which came wrong where its word is missing; None where the step is lost.
    fn after_block(self, word: Option<u16>) -> Option<BlockWindow>
        ensures { result ≡ sync.block_counted word self }
    {
        let wrong = u8::from(word.is_none());
        BlockWindow {
            blocks: self.blocks.saturating_sub(1),
            wrong: self.wrong.saturating_sub(wrong),
        }
        .judged()
    }

    /// A window that is over is judged: the step is lost, or a new window begins.
    fn judged(self) -> Option<BlockWindow>
        ensures { result ≡ sync.judged self }
    {
        if self.blocks > 0 {
            return Some(self);
        }
        if self.wrong == 0 {
            None
        } else {
            Some(BlockWindow::new())
        }
    }
}
