use cfm_closure::Target;

/// What an import of a fragment means.
#[derive(Clone, Copy, Debug, PartialEq, Eq)]
pub struct ImportTarget {
    /// Its target, or `None` if its library or its symbol is missing and weak.
    pub target: Option<Target>,
    /// The address that was added for it, or 0 if there is no target.
    pub address: u32,
}
