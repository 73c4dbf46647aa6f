ghost use Rattle.std.specs.Prelude.{◌≡◌, ◌+◌, ◌≤◌, ◌++◌, [], ◌∷◌, vec_len, vec_capacity, OnOk};

use rep_types::Memory;

/// Room for one more item.
pub fn reserve<T: Drop>(items: &mut Vec<T>) -> Result<(), Memory>
    ensures items { items.new.items ≡ items.old.items }
    ensures room { OnOk result (vec_len items.new + 1 ≤ vec_capacity items.new) }
{
    items.reserve(1)?;
    Ok(())
}

/// One more item, for which there is room.
pub fn add<T: Drop>(items: &mut Vec<T>, item: T)
    requires { vec_len items.old + 1 ≤ vec_capacity items.old }
    ensures { items.new.items ≡ items.old.items ++ item ∷ [] }
{
    let Ok(()) = items.push(item) else {
        unreachable!()
    };
}
