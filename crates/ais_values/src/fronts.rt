//! Elements that leave the front of a list.
ghost use Rattle.std.specs.Prelude.{◌≡◌, ◌≤◌, drop};
ghost use Rattle.std.specs.VecDeque.{deque_len, deque_capacity};

use std::collections::VecDeque;

/// Removes so many elements from the front. It takes no memory, and the room stays.
pub fn remove_front<T: Drop>(items: &mut VecDeque<T>, count: usize)
    requires { count ≤ deque_len items.old }
    ensures items { items.new.items ≡ drop count items.old.items }
    ensures capacity { deque_capacity items.new ≡ deque_capacity items.old }
{
    let rest = items.len() - count;
    items.rotate_left(count);
    items.truncate(rest);
}
