//! The messages from one process to another.

ghost use Rattle.std.specs.Prelude.{◌≡◌, ◌+◌, ◌-◌, ◌<◌, ◌≤◌, ◌++◌, ◌∷◌, [], length, take, drop, slice_get, IfOk, OnOk, IsSome, ◌↔◌};
ghost use Rattle.std.specs.Option.{option_to_list};

use dbg_base::Sequence;
use std::alloc::{AllocError, Global};
use std::collections::VecDeque;
use std::marker::Model;

/// The messages from one process to another, the head first.
#[derive(Drop)]
pub(crate) struct Queue {
    messages: VecDeque<i64>,
}

impl Model for Queue {
    ghost use Rattle.std.specs.Prelude.{◌-◌};
    ghost use Rattle.std.specs.VecDeque.{deque_len, deque_capacity};
    ghost use Rattle.fifo_grid.specs.Queues.{QueueState};

    ghost Value = { QueueState };

    ghost view = { λ queue. record { messages = queue.messages.items; room = deque_capacity queue.messages - deque_len queue.messages } };
}

impl Queue {
    /// An empty queue. It does not allocate.
    pub(crate) fn new(alloc: Global) -> Queue
        ensures { result.messages ≡ [] }
    {
        Queue {
            messages: VecDeque::new(alloc),
        }
    }

    /// How many messages there are.
    pub(crate) fn len(&self) -> usize
        ensures { result ≡ length self.now.messages }
    {
        self.messages.len()
    }

    /// The head, if there is one.
    pub(crate) fn front(&self) -> Option<i64>
        ensures { result ≡ slice_get self.now.messages 0 }
    {
        self.messages.front().copied()
    }

    /// Copies the messages, the head first.
    pub(crate) fn items(&self, alloc: Global) -> Result<Sequence<i64>, AllocError>
        ensures { IfOk result (λ messages. messages ≡ self.now.messages) }
    {
        let (front, back) = self.messages.as_slices();
        let mut messages = Vec::from_slice(alloc, front)?;
        messages.extend_from_slice(back)?;
        Ok(Sequence::new(messages))
    }

    /// Makes room for so many more messages.
    pub(crate) fn reserve(&mut self, more: usize) -> Result<(), AllocError>
        ensures messages { self.new.messages ≡ self.old.messages }
        ensures grows { self.old.room ≤ self.new.room }
        ensures ok { OnOk result (more ≤ self.new.room) }
    {
        self.messages.reserve(more)
    }

    /// Appends the message. It does not allocate.
    pub(crate) fn push_back(&mut self, message: i64)
        requires { 0 < self.old.room }
        ensures messages { self.new.messages ≡ self.old.messages ++ message ∷ [] }
        ensures room { self.new.room ≡ self.old.room - 1 }
    {
        self.messages.push_back_reserved(message);
    }

    /// Puts the message at the head. It does not allocate.
    pub(crate) fn unpop_front(&mut self, message: i64)
        requires { 0 < self.old.room }
        ensures messages { self.new.messages ≡ message ∷ self.old.messages }
        ensures room { self.new.room ≡ self.old.room - 1 }
    {
        self.messages.push_front_reserved(message);
    }

    /// Removes the head, if there is one. It does not allocate.
    pub(crate) fn pop_front(&mut self) -> Option<i64>
        ensures front { result ≡ slice_get self.old.messages 0 }
        ensures messages { self.new.messages ≡ drop 1 self.old.messages }
        ensures grows { self.old.room ≤ self.new.room }
    {
        self.messages.pop_front()
    }

    /// Removes the tail, if there is one. It does not allocate.
    pub(crate) fn unpush_back(&mut self) -> Option<i64>
        ensures back { self.old.messages ≡ self.new.messages ++ option_to_list result }
        ensures messages { self.new.messages ≡ take (length self.old.messages - 1) self.old.messages }
        ensures some { IsSome result ↔ (0 < length self.old.messages) }
        ensures grows { self.old.room ≤ self.new.room }
    {
        self.messages.pop_back()
    }

    /// Copies the queue.
    pub(crate) fn copy(&self) -> Result<Queue, AllocError>
        ensures { IfOk result (λ queue. queue.messages ≡ self.now.messages) }
    {
        Ok(Queue {
            messages: self.messages.clone()?,
        })
    }
}
