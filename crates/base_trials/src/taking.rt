//! The passes that an opening answered are taken out of their list.
ghost use Rattle.std.specs.Prelude.{◌≡◌, ◌≤◌, ◌++◌, [], ◌∷◌, vec_len, vec_capacity};

/// Takes the passes of three threads, which are all.
pub(crate) fn take_three<P>(passes: &mut Vec<P>) -> (P, P, P)
    requires { vec_len passes.old ≡ 3 }
    ensures taken { passes.old.items ≡ ((passes.new.items ++ result.0 ∷ []) ++ result.1 ∷ []) ++ result.2 ∷ [] }
    ensures room { (vec_len passes.new ≡ 0) × (3 ≤ vec_capacity passes.new) }
{
    let two = passes.take_last();
    let one = passes.take_last();
    let zero = passes.take_last();
    (zero, one, two)
}
