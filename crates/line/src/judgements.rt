//! How a channel judges a transmission that means it.

use crate::accepted::AcceptedCommand;
use crate::codes::ResponseCode;

/// How a channel judges a whole transmission that means it.
#[derive(Clone, Copy)]
pub enum Judgement<'a> {
    /// The transmission is not sound: by the first status that tells it.
    CommunicationError(u8),
    /// Sound, and refused.
    Refused(ResponseCode),
    Accepted(AcceptedCommand<'a>),
}
