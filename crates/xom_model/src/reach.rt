use xom_base::Rule;

/// What a private access comes to.
#[derive(Clone, Copy)]
pub enum Reach {
    /// The line stands in this place of the cache.
    Ready(u32),
    /// Its page isn't mapped.
    PageFault(u32),
    /// The slot was stopped by this rule.
    Stopped(Rule),
}
