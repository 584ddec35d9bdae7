//! What a transmission means to one channel: whether it is meant, how it judges it, what it writes,
//! which bytes answer.
#![tactic(auto)]

mod accepted;
mod addressing;
mod allotting;
mod changes;
mod codes;
mod commands;
mod data;
mod judgements;
mod judging;
mod marks;
mod reception;
mod replying;
mod requests;

pub use accepted::AcceptedCommand;
pub use addressing::{address_means, means, tag_means};
pub use allotting::{Allotting, Given};
pub use changes::Changes;
pub use codes::ResponseCode;
pub use commands::{Command, UnknownCommand};
pub use judgements::Judgement;
pub use judging::{judge, response_code};
pub use marks::Marks;
pub use reception::Received;
pub use replying::{ANSWER_ROOM, LABELS_LENGTH, MAX_ANSWER, MESSAGE_LENGTH, ReplySource, reply};
pub use requests::Request;
