//! Numbers out of the data of replies.

ghost use Rattle.std.specs.Prelude.{◌≡◌};
ghost use Rattle.std.specs.Option.{option_map};
ghost use Rattle.std.specs.Result.{result_ok};
ghost use Rattle.master.specs.Replies.{data_of, address_told, flow_told};

use frame::read_reply;

// The first byte of a long address from the primary master: bit 7, and the manufacturer.
const PRIMARY_TO_MANUFACTURER: u8 = 0x8A;

/// The long address of a channel, from a reply that tells its unique identifier; none where the bytes are no such reply.
pub fn long_address(reply: &[u8]) -> Option<[u8; 5]>
    ensures { result ≡ address_told reply.now }
{
    match reply_data(reply)? {
        [_, _, device_type, _, _, _, _, _, _, a, b, c] => {
            Some([PRIMARY_TO_MANUFACTURER, *device_type, *a, *b, *c])
        }
        _ => None,
    }
}

/// The pattern of a flow, from a reply that tells it behind its unit code; none where the bytes are no such reply.
pub fn flow_pattern(reply: &[u8]) -> Option<u32>
    ensures { result ≡ flow_told reply.now }
{
    match reply_data(reply)? {
        [_, a, b, c, d] => Some(u32::from_be_bytes([*a, *b, *c, *d])),
        _ => None,
    }
}

// The data behind the two status bytes, where the bytes are a sound transmission of a reply.
fn reply_data(bytes: &[u8]) -> Option<&[u8]>
    ensures { option_map (λ d. d.now) result ≡ data_of bytes.now }
{
    let Ok(reply) = read_reply(bytes) else {
        return None;
    };
    match reply.data {
        [_, _, data @ ..] => Some(data),
        _ => None,
    }
}
