use cfm_prepare::Connection;

/// A fragment of a connection's closure, by its place in the store.
#[derive(Clone, Copy)]
pub(crate) struct FragmentPlace {
    pub connection: Connection,
    pub position: usize,
}
