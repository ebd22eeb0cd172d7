/// The page has a frame already. The map is as it was.
#[derive(Clone, Copy)]
pub struct Mapped;

/// The page has no frame. The map is as it was.
#[derive(Clone, Copy)]
pub struct NotMapped;
