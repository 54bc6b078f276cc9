ghost use Rattle.lot_bucket.specs.KeyLine.{KeyLine};

/// The right to change the line of one key. Whoever takes a thread from the line owes it a letter.
///
/// Implement it on the right that the words of the keys are ruled by; the bucket only keeps it. It need not
/// be `Drop`: no bucket ever drops one.
pub trait Root: Send {
    /// What it is seen as: its key, the threads that wait on it, first come first, and the letters that are
    /// still to be posted, as pairs of thread and token.
    ghost view: { Self → KeyLine };
}
