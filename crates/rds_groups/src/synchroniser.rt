//! Groups in a stream of bits. Source: IEC 62106, group and block synchronisation; profile for the rule.
ghost use Rattle.std.specs.Prelude.{◌≡◌, ◌%◌, ◌^◌, ◌<◌, All};
ghost use Rattle.rds_groups.specs.Sync as sync;
ghost use Rattle.rds_groups.specs.Text as text;

use crate::bit_text::bit_of;
use crate::block_window::BlockWindow;
use crate::heard::HeardGroup;

/// Finds the groups in a stream of bits.
#[derive(Clone, Copy, Debug, PartialEq, Eq)]
pub struct Synchroniser {
    /// The last 104 bits, as four blocks of 26 bits each, the oldest bit highest in the first.
    pub blocks: [u32; 4],
    /// Once a group was found: how many bits are left until the next one ends.
    pub left: Option<u8>,
    /// Its window of blocks: whether the step is still right.
    pub window: BlockWindow,
}

impl Synchroniser {
    /// Nothing came yet.
    pub fn new() -> Synchroniser
        ensures { result ≡ sync.switched_on }
    {
        Synchroniser {
            blocks: [0; 4],
            left: None,
            window: BlockWindow::new(),
        }
    }

    /// Takes one more bit, and gives the group that ends with it, as it came.
    ///
    /// A group is found where the last 104 bits are one with no wrong bit. From then on each 104 bits are a group, of
    /// which blocks may be missing, until a whole one is found elsewhere, or at least 35 of a window of 50 blocks were
    /// wrong: then a whole one is looked for as at the beginning.
    pub fn take(&mut self, bit: bool) -> Option<HeardGroup>
        ensures { (self.new, result) ≡ sync.step bit self.old }
    {
        self.blocks = shifted(&self.blocks, bit);
        self.left = counted(self.left);
        let heard = HeardGroup::of_blocks(self.blocks);
        if is_end(&heard, self.left) {
            self.go_on(&heard);
            Some(heard)
        } else {
            None
        }
    }

    /// Behind a group: the next one has 104 bits, unless the step is lost.
    fn go_on(&mut self, heard: &HeardGroup)
        ensures { self.new ≡ sync.behind self.old.blocks (sync.window_after heard.now self.old.window) }
    {
        match window_after(heard, self.window) {
            Some(window) => {
                self.left = Some(104);
                self.window = window;
            }
            None => {
                self.left = None;
                self.window = BlockWindow::new();
            }
        }
    }

    /// The same for a bit that comes as text: the character 0 or 1. Any other one is no bit, and nothing changes.
    pub fn take_character(&mut self, character: u8) -> Option<HeardGroup>
        ensures { (self.new, result) ≡ text.character_step character self.old }
    {
        match bit_of(character) {
            Some(bit) => self.take(bit),
            None => None,
        }
    }
}

/// One more bit behind the others: each block hands its oldest bit to the one before.
fn shifted(blocks: &[u32; 4], bit: bool) -> [u32; 4]
    ensures value { result ≡ sync.shifted bit blocks.now }
    ensures below { All (λ bits. bits < 2 ^ 26) result }
{
    [
        pushed(blocks[0], oldest(blocks[1])),
        pushed(blocks[1], oldest(blocks[2])),
        pushed(blocks[2], oldest(blocks[3])),
        pushed(blocks[3], u32::from(bit)),
    ]
}

/// A bit behind the last 25 of a block.
fn pushed(block: u32, bit: u32) -> u32
    requires { bit < 2 }
    ensures value { result ≡ sync.pushed block bit }
    ensures below { result < 2 ^ 26 }
{
    block % 0x200_0000 * 2 + bit
}

/// The oldest bit of a block.
fn oldest(block: u32) -> u32
    ensures value { result ≡ sync.oldest block }
    ensures below { result < 2 }
{
    block / 0x200_0000 % 2
}

/// One bit fewer is left.
fn counted(left: Option<u8>) -> Option<u8>
    ensures { result ≡ sync.counted left }
{
    match left {
        Some(bits) => Some(bits.saturating_sub(1)),
        None => None,
    }
}

/// The next group ends here.
fn is_due(left: Option<u8>) -> bool
    ensures { result ≡ sync.is_due left }
{
    match left {
        Some(bits) => bits == 0,
        None => false,
    }
}

/// A group ends here.
fn is_end(heard: &HeardGroup, left: Option<u8>) -> bool
    ensures { result ≡ sync.is_end heard.now left }
{
    is_whole(heard) || is_due(left)
}

/// The window behind a group; None where the step is lost. A whole group begins a new one.
fn window_after(heard: &HeardGroup, window: BlockWindow) -> Option<BlockWindow>
    ensures { result ≡ sync.window_after heard.now window }
{
    if is_whole(heard) {
        Some(BlockWindow::new())
    } else {
        window.after_group(heard)
    }
}

/// Each of the four blocks came.
fn is_whole(heard: &HeardGroup) -> bool
    ensures { result ≡ sync.is_whole heard.now }
{
    heard.block1.is_some()
        && heard.block2.is_some()
        && heard.block3.is_some()
        && heard.block4.is_some()
}
