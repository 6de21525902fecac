// A row of an exchange: a call on one of the two ends, and what it brings.

/// A call on one of the two ends. Blocks and bytes of the line are texts of hex digits.
pub enum Call {
    Open,
    Step,
    /// The timer. A note that it brings is written off.
    Timer,
    HostHears(&'static str),
    HostSubmits(u8, &'static str),
    HostCollects(u8),
    /// What the host and its stores say of a channel.
    HostCounts(u8),
    /// The host's incoming store is filled, by its own calls, with blocks on channel 9.
    FillHost,
    TncHears(&'static str),
    TncSubmits(u8, &'static str),
    TncCollects(u8),
    /// What the TNC and its stores say of a channel.
    TncCounts(u8),
    FillTnc,
    /// From here on the wire buffers have so many bytes.
    Room(usize),
}

/// A call; and what it answers, then for the host where it stands, then the wire form that it writes.
pub struct Row(pub Call, pub &'static str);
