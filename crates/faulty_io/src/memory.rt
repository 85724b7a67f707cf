//! Memory that runs out.
use arrayvec::ArrayVec;
use std::alloc::Global;

/// The largest block that is asked for at first; half of it where there is none, and so on.
const LARGEST: usize = 1 << 46;
/// From here down each size is asked for that the C library tells apart.
const SMALL: usize = 1024;
/// The most blocks that are taken.
const BLOCKS: usize = 1 << 18;
/// Room is reserved in blocks of this size, which lie side by side.
const PART: usize = 4096;
/// How much is given back at a time: by so much the C library tells sizes of blocks apart, and the least block takes
/// twice as much.
const STEP: usize = 16;
/// So far the stack is grown before memory is taken, since it can't grow when there is none: the system ends a process
/// whose stack wants more. A run that is tried stands far below this.
const STACK: usize = 1 << 19;
/// Why memory could not be taken.
const NONE: &str = "no memory to begin with";
/// Why it can't be taken to its end.
const ENDLESS: &str = "memory does not end here: run this by rt test";

/// All the memory that a process can have. What it asks for from then on is refused, until some is given back.
///
/// It is given back from one room, and by less at a time than the least block takes. So a run that is tried again each
/// time finds room for one request more at most, and each of its requests is refused in turn, but for one that is met
/// from what the run itself has given back before.
#[derive(Drop)]
pub struct ScarceMemory {
    alloc: Global,
    /// What was taken.
    taken: Vec<Vec<u8>>,
    /// What is left of the room that is given back.
    room: Option<Vec<u8>>,
}

impl ScarceMemory {
    /// Takes all memory, with so many bytes to be given back. It fails where there is no memory for these, and where
    /// memory does not end, as under `rt try`, which puts a store of its own in the place of the C library's.
    pub fn take_all(alloc: Global, room: usize) -> Result<ScarceMemory, &'static str> {
        grow_stack(alloc)?;
        let mut taken = Vec::with_capacity(alloc, BLOCKS).or(Err(NONE))?;
        let mut reserved = Vec::with_capacity(alloc, room / PART + 1).or(Err(NONE))?;
        for _ in 0..room / PART + 1 {
            let part = Vec::<u8>::with_capacity(alloc, PART).or(Err(NONE))?;
            reserved.push(part).or(Err(NONE))?;
        }
        take_from(alloc, LARGEST, &mut taken)?;
        drop(reserved);
        let room = Vec::with_capacity(alloc, room).or(Err(NONE))?;
        take_from(alloc, PART, &mut taken)?;
        Ok(ScarceMemory {
            alloc,
            taken,
            room: Some(room),
        })
    }

    /// Gives 16 bytes back. Answers whether they were left.
    pub fn give(&mut self) -> bool {
        let Some(room) = self.room.take() else {
            return false;
        };
        let Some(size) = room.capacity().checked_sub(STEP) else {
            return false;
        };
        drop(room);
        self.room = Vec::with_capacity(self.alloc, size).ok();
        true
    }
}

/// Writes so much of the stack, which the process keeps from then on. The copy is there so that no compiler leaves it
/// out.
#[inline(never)]
fn grow_stack(alloc: Global) -> Result<(), &'static str> {
    let mut room = ArrayVec::<u8, STACK>::new();
    for place in 0..STACK {
        room.try_push((place % 251) as u8).or(Err(NONE))?;
    }
    Vec::from_slice(alloc, &room).or(Err(NONE))?;
    Ok(())
}

/// Takes what there is, in blocks of at most this size.
fn take_from(alloc: Global, largest: usize, taken: &mut Vec<Vec<u8>>) -> Result<(), &'static str> {
    let mut size = largest;
    for _ in 0..BLOCKS {
        match Vec::with_capacity(alloc, size) {
            Ok(block) => taken.push(block).or(Err(NONE))?,
            Err(_) if size > SMALL => size /= 2,
            Err(_) if size > 16 => size -= 16,
            Err(_) => return Ok(()),
        }
    }
    Err(ENDLESS)
}
