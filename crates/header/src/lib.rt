//! The supply header: what the channels of a rack may draw together.
#![tactic(auto)]

ghost use Rattle.std.specs.Prelude.{◌≡◌, ◌≤◌};
ghost use Rattle.refusals.specs.Refusals.{numbered};
ghost use Rattle.header.specs.Shares.{share_at, most_share, rack_share, capacity_of, fits?};

use rack::{MAX_CHANNELS, Rack};
use refusals::Refusal;

// The load of 100 percent: a supply is weighed on the scale of the loads.
const FULL_LOAD: u64 = setpoint::FULL_LOAD as u64;

/// The sum of the shares of a rack's channels, by their setpoints: 104 where the rack tells more than 15 records.
pub fn total_share<R: Rack>(rack: &R) -> Result<u64, Refusal>
    ensures { numbered result ≡ rack_share (R.Rack.records rack.now) }
{
    let count = rack.count();
    if count > MAX_CHANNELS {
        return Err(Refusal::NumberOfRecords);
    }
    Ok((0..count).map(|channel| channel_share(rack, channel)).sum())
}

/// The share of one channel, 0 where there is none.
pub fn channel_share<R: Rack>(rack: &R, channel: u8) -> u64
    ensures value { result ≡ share_at (R.Rack.records rack.now) channel }
    ensures bound { result ≤ most_share }
{
    rack.fields(channel).map_or(0, |fields| {
        setpoint::load(fields.setpoint).map_or(0, |load| setpoint::share(load, fields.full_scale))
    })
}

/// The most that shares may sum up to under a supply in mL/min.
pub fn capacity(supply: u32) -> u64
    ensures { result ≡ capacity_of supply }
{
    u64::from(supply) * FULL_LOAD
}

/// Whether shares of this sum fit a supply in mL/min.
pub fn fits(supply: u32, total: u64) -> bool
    ensures { result ≡ fits? supply total }
{
    total <= capacity(supply)
}
