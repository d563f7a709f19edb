ghost use Rattle.std.specs.Prelude.{◌≡◌, ◌≤◌, ◌+◌, ◌*◌, [], None, vec_capacity};
ghost use Rattle.switch_side.specs.Carrying.{carried, telling};

use crate::dispatch::Dispatch;
use std::alloc::Global;
use std::mem;

/// What the messages of a switch leave to the next one.
#[derive(Drop)]
pub struct Spare {
    /// What followed from the last message. The memory of its messages' list serves again.
    pub dispatch: Dispatch,
    /// Memory of a message.
    pub message: Vec<u8>,
}

impl Spare {
    /// No memory, and none is taken.
    pub fn none(alloc: Global) -> Spare
        ensures { carried result.dispatch ≡ telling [] None }
    {
        Spare {
            dispatch: Dispatch::nothing(alloc),
            message: Vec::new(alloc),
        }
    }

    /// Memory for a message of so many bytes: the one that is there, unless it has more than twice as many, so that
    /// messages that wait hold no more than that.
    pub(crate) fn memory_for(&mut self, alloc: Global, size: usize) -> Vec<u8>
        ensures dispatch { self.new.dispatch ≡ self.old.dispatch }
        ensures little { vec_capacity result ≤ 2 * size + 1 }
    {
        let memory = mem::replace(&mut self.message, Vec::new(alloc));
        if memory.capacity() / 2 > size {
            return Vec::new(alloc);
        }
        memory
    }
}
