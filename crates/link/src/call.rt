// The ten calls of both ends as values.

/// One of the ten calls.
#[derive(Clone, Copy)]
pub enum Call<'a> {
    HostOpen,
    HostStep,
    HostTimer,
    HostHear(u8),
    HostSubmit(u8, &'a [u8]),
    /// By the note that the observer gives.
    HostSubmitAgain(&'a [u8]),
    HostCollect(u8),
    TncHear(u8),
    TncSubmit(u8, &'a [u8]),
    TncCollect(u8),
}
