//! Whether a set-up, a rack of channels under a supply, is taken.
#![tactic(auto)]

ghost use Rattle.std.specs.Prelude.{◌≡◌, ◌≤◌, length, drop, IsOk, OnOk};
ghost use Rattle.rack.specs.Meaning.{most_channels};
ghost use Rattle.runs.specs.SetUps.{SetUp};
ghost use Rattle.setup.specs.SetUps.{identity_at?, among?, same_identity_later?, any_same_identity?, shares_fit?, refusal_in, set_up_refusal};

use rack::{MAX_CHANNELS, Rack};
use record::Fields;
use refusals::Refusal;

/// The largest supply that a header gives, in mL/min.
pub const MAX_SUPPLY: u32 = 15_000_000;

/// Whether the set-up of a rack under a supply, in mL/min, is taken: exactly where `SetUp` holds. The first refusal that applies:
/// supply, number of records, identities, shares.
pub fn check<R: Rack>(rack: &R, supply: u32) -> Result<(), Refusal>
    ensures value { refusal_in result ≡ set_up_refusal supply (R.Rack.records rack.now) }
    ensures taken { OnOk result (SetUp supply (R.Rack.records rack.now)) }
    ensures exact { SetUp supply (R.Rack.records rack.now) → IsOk result }
{
    if supply > MAX_SUPPLY {
        return Err(Refusal::Supply);
    }
    if rack.count() > MAX_CHANNELS {
        return Err(Refusal::NumberOfRecords);
    }
    if any_same_identity(rack) {
        return Err(Refusal::SameIdentity);
    }
    if !shares_fit(rack, supply) {
        return Err(Refusal::OverSupply);
    }
    Ok(())
}

// Whether a rack has at most 15 channels and their shares fit a supply.
fn shares_fit<R: Rack>(rack: &R, supply: u32) -> bool
    ensures { result ≡ shares_fit? supply (R.Rack.records rack.now) }
{
    header::total_share(rack).is_ok_and(|total| header::fits(supply, total))
}

// Whether some two channels have the same identity. Of a rack of at most 15 channels, as the two below: a type for such a rack
// would be a rack again, with all its methods.
fn any_same_identity<R: Rack>(rack: &R) -> bool
    requires { length (R.Rack.records rack.now) ≤ most_channels }
    ensures { result ≡ any_same_identity? (R.Rack.records rack.now) }
{
    (0..rack.count()).any(|channel| has_same_identity_later(rack, channel))
}

// Whether a later channel has the identity of this one.
fn has_same_identity_later<R: Rack>(rack: &R, channel: u8) -> bool
    requires { length (R.Rack.records rack.now) ≤ most_channels }
    ensures { result ≡ same_identity_later? (R.Rack.records rack.now) channel }
{
    rack.fields(channel)
        .is_ok_and(|fields| has_identity_from(rack, channel + 1, fields))
}

// Whether some channel from this one on has the identity of these fields.
fn has_identity_from<R: Rack>(rack: &R, channel: u8, fields: Fields) -> bool
    requires { length (R.Rack.records rack.now) ≤ most_channels }
    ensures { result ≡ among? fields (drop channel (R.Rack.records rack.now)) }
{
    (channel..rack.count()).any(|later| has_identity(rack, later, fields))
}

// Whether there is a channel of this number, and it has the identity of these fields.
fn has_identity<R: Rack>(rack: &R, channel: u8, fields: Fields) -> bool
    ensures { result ≡ identity_at? fields (R.Rack.records rack.now) channel }
{
    rack.fields(channel)
        .is_ok_and(|other| other.identity() == fields.identity())
}
