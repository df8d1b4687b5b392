//! Room of lists that grow shorter.
ghost use Rattle.std.specs.Prelude.{◌≡◌, ◌≤◌, [], vec_capacity};

/// Gives back the room that a list has beyond its items, where it is that of more than 1,024 items and an eighth of
/// those that are left. So a list that loses its items one by one moves each of them a few times at most. It can't
/// fail: where it is refused, the room stays. An empty list is left with the room of 1,024 items at most, since giving
/// back all of it is never refused.
pub fn give_room_back<T>(items: &mut Vec<T>)
    ensures same { items.new.items ≡ items.old.items }
    ensures less { vec_capacity items.new ≤ vec_capacity items.old }
    ensures empty { items.old.items ≡ [] → vec_capacity items.new ≤ 1024 }
{
    let spare = items.capacity() - items.len();
    if spare > 1024 + items.len() / 8 {
        items.shrink_to_fit();
    }
}
