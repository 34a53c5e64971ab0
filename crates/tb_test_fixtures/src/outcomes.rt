//! What becomes of values after a call that fails.

/// Whether a call took what it was passed. What it returns is freed.
pub fn is_taken<T: Drop>(handed: Result<(), T>) -> bool {
    match handed {
        Ok(()) => true,
        Err(back) => {
            drop(back);
            false
        }
    }
}
