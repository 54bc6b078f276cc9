//! Values become what the slots hold, and come back.
ghost use Rattle.std.specs.Prelude.{◌≡◌, ◌≤◌, Some, map, vec_len, vec_capacity};
ghost use Rattle.std.specs.List.{All, AllZip};
ghost use Rattle.std.specs.Option.{IsSome};

/// Moves the values into slots, in order. Their own room stays.
pub fn shelve<V>(values: &mut Vec<V>, slots: &mut Vec<Option<V>>)
    requires { (vec_len slots.old ≡ 0) × (vec_len values.old ≤ vec_capacity slots.old) }
    ensures slots { slots.new.items ≡ map (λ (x : V). Some x) values.old.items }
    ensures room { (vec_len values.new ≡ 0) × (vec_capacity values.new ≡ vec_capacity values.old) }
{
    move_each(values, slots, |value| Some(value));
}

/// Moves the values back out of the slots, in order, into the room that they had.
pub fn unshelve<V>(mut slots: Vec<Option<V>>, mut values: Vec<V>) -> Vec<V>
    requires full { All IsSome slots.items }
    requires room { (vec_len values ≡ 0) × (vec_len slots ≤ vec_capacity values) }
    ensures { map (λ (x : V). Some x) result.items ≡ slots.items }
{
    move_each(&mut slots, &mut values, |slot| slot.unwrap());
    slots.destroy_empty();
    values
}

/// Moves each item of the one list into the other, in order, as `turn` makes it of the item. Both rooms stay.
fn move_each<X, Y, F: Fn(X) -> Y>(from: &mut Vec<X>, to: &mut Vec<Y>, turn: F)
    requires calls { All (F.pre turn) from.old.items }
    requires room { (vec_len to.old ≡ 0) × (vec_len from.old ≤ vec_capacity to.old) }
    ensures each { AllZip (F.post turn) from.old.items to.new.items }
    ensures empty { (vec_len from.new ≡ 0) × (vec_capacity from.new ≡ vec_capacity from.old) }
    ensures room { vec_capacity to.new ≡ vec_capacity to.old }
{
    while let Some(item) = from.pop() {
        to.push_reserved(turn(item));
    }
    to.reverse();
}
