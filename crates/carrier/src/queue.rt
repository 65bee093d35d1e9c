// A queue in fixed memory.
ghost use Rattle.std.specs.Prelude.{◌≡◌, ◌<◌, ◌≤◌, [], ◌∷◌, ◌++◌, length, nat_le, IfOk};
ghost use Rattle.std.specs.VecDeque.{deque_len, deque_capacity};

use std::alloc::{AllocError, Global};
use std::collections::VecDeque;

// Room for `N` items, taken when it is made.
#[derive(Drop)]
pub(crate) struct Queue<T, const N: usize> {
    items: VecDeque<T>,
    ghost short: { deque_len items ≤ N },
    ghost room: { N ≤ deque_capacity items },
}

impl<T, const N: usize> Queue<T, N> {
    ghost use Rattle.carrier.specs.Queue.{queue_items, Popped};

    pub(crate) fn new(heap: Global) -> Result<Queue<T, N>, AllocError>
        ensures { IfOk result (λ q. queue_items q ≡ []) }
    {
        let items = VecDeque::with_capacity(heap, N)?;
        Ok(Queue { items })
    }

    pub(crate) fn len(&self) -> usize
        ensures { result ≡ length (queue_items self.now) }
    {
        self.items.len()
    }

    pub(crate) fn is_full(&self) -> bool
        ensures { result ≡ nat_le N (length (queue_items self.now)) }
    {
        N <= self.items.len()
    }

    pub(crate) fn push(&mut self, item: T)
        requires { length (queue_items self.old) < N }
        ensures { queue_items self.new ≡ queue_items self.old ++ item ∷ [] }
    {
        self.items.push_back_reserved(item);
    }

    // The oldest item, or none exactly when there is none.
    pub(crate) fn pop(&mut self) -> Option<T>
        ensures { Popped self.old result self.new }
    {
        // `remove` also promises that an empty deque stays as it was; `pop_front` does not.
        self.items.remove(0)
    }
}
