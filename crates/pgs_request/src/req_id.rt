/// The id of a client's request. One that is sent again has the id that it had.
#[derive(Clone, Copy, Debug, PartialEq, Eq, Hash, Drop)]
pub struct ReqId {
    /// The client.
    pub client: u32,
    /// The client's number for this request.
    pub serial: u32,
}
