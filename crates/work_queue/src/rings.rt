// What a source and a target keep of their rings.

/// Of each target, by its number, the place for the next post, 0 to 7. Elements past the layout stay 0.
#[derive(Clone, Copy, Debug, PartialEq, Eq)]
pub struct Sent {
    pub next: [u8; 16],
}

/// Of each source, by its number as an actor, the place for the next load and ack, 0 to 7. Elements past the layout stay 0.
#[derive(Clone, Copy, Debug, PartialEq, Eq)]
pub struct Served {
    pub next: [u8; 17],
}
