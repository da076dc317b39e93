//! What becomes of a connection.

/// What becomes of a connection behind an answer.
#[derive(Clone, Copy, Debug, PartialEq, Eq)]
pub enum ChannelFate {
    /// It stays open.
    Stays,
    /// It is cut.
    IsCut,
    /// Both connections of the service are cut.
    BothAreCut,
}
