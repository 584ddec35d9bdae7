//! Which channel a request means.

ghost use Rattle.std.specs.Prelude.{◌≡◌};
ghost use Rattle.frame.specs.Views.{frame_parts, address_bytes};
ghost use Rattle.line.specs.Views.{seen};
ghost use Rattle.serving.specs.Meant.{asked_at?, sole_meant, ToldExactly, TellsTag};

use crate::reading::text_from;
use frame::{Address, Frame};
use line::{Request, address_means, tag_means};
use rack::{MAX_CHANNELS, Rack};
use record::TAG;

const TAG_LENGTH: usize = TAG.end - TAG.start;

/// The one channel that a request's frame means; none where it means no channel or several, or the
/// rack has too many.
pub fn sole_meant<R: Rack>(rack: &R, frame: Frame<'_>) -> Option<u8>
    ensures value { result ≡ sole_meant (frame_parts frame.entry) (R.Rack.records rack.now) }
    ensures exact { ToldExactly (frame_parts frame.entry) (R.Rack.records rack.now) result }
{
    let count = rack.count();
    if count > MAX_CHANNELS {
        return None;
    }
    let request = Request::of(frame.command, frame.data);
    let address = frame.address;
    let mut meant = (0..count).filter(move |channel| meant_at(rack, address, request, *channel));
    let channel = meant.next()?;
    meant.next().is_none().then_some(channel)
}

// Whether a request means a channel; its tag is only asked for where the address means it.
fn meant_at<R: Rack>(rack: &R, address: Address, request: Request<'_>, channel: u8) -> bool
    ensures { result
        ≡ asked_at? (address_bytes address) (seen request.entry) (R.Rack.records rack.now) channel }
{
    // Not `is_ok_and`: of a closure that passes an address on, the proof does not learn what it
    // answers.
    let Ok(fields) = rack.fields(channel) else {
        return false;
    };
    address_means(address, fields) && tag_meant(rack, request, channel)
}

// Whether a request means a channel by its tag. Only a question for a tag needs it. Not inlined, so
// that the search through the channels is small.
#[inline(never)]
fn tag_meant<R: Rack>(rack: &R, request: Request<'_>, channel: u8) -> bool
    ensures { TellsTag (seen request.entry) (R.Rack.records rack.now) channel result }
{
    match request {
        Request::TagQuestion(_) => {
            let tag: [u8; TAG_LENGTH] = text_from(rack, channel, TAG.start);
            tag_means(request, &tag)
        }
        _ => tag_means(request, &[]),
    }
}
