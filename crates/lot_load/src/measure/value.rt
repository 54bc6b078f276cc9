//! What the locks guard: a number, under no rule.
use lot_words::Keeps;

#[derive(Clone, Copy)]
pub struct Number {
    pub n: u64,
}

impl Keeps for Number {
    type Part = ();

    ghost keeps = { λ key number. Unit {0} };

    ghost grows = { λ old new. Unit {0} };

    ghost part = { λ thread number. tt };

    ghost grows_itself = { λ number. tt };

    ghost grows_on = { λ x y z p q. tt };
}

/// The sum of the numbers, modulo 2^64.
pub fn sum_of(numbers: &[Number]) -> u64 {
    let mut sum = 0u64;
    for number in numbers {
        sum = sum.wrapping_add(number.n);
    }
    sum
}
