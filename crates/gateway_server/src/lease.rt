use transport_pool::Grant;

/// What a run holds of the pool.
#[derive(Drop)]
pub enum Lease<L> {
    /// Nothing.
    Nothing,
    /// The right to dial a transport.
    Granted(Grant),
    /// A transport that is dialled.
    Dialled(Grant, L),
}
