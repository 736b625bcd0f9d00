//! Where other tasks may hold what the analysed task waits for.

/// On which processors a limit counts holdings. None of them is one of the analysed task itself.
#[derive(Clone, Copy, Debug, PartialEq, Eq)]
pub(crate) enum Place {
    /// On a task's processor, by other tasks than that one.
    Beside,
    /// On other processors than the task's. Of lower tasks also than the analysed task's.
    Away,
}
