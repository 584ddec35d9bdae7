//! What is written through a rack.

ghost use Rattle.std.specs.Option.{option_map, option_to_list};
ghost use Rattle.rack.specs.Edits.{edit_of};
ghost use Rattle.line.specs.Judgements.{edits};
ghost use Rattle.line.specs.Views.{judged, edits_in};
ghost use Rattle.serving.specs.Writing.{WritesAll, CarriesOut};

use line::{Changes, Judgement};
use rack::{Change, Rack};
use record::Fields;

/// Writes what a judgement changes, to a channel with these fields, and answers the fields that it
/// has then: they are asked for only where something was written.
pub(crate) fn carry_out<R: Rack>(
    rack: &mut R,
    channel: u8,
    fields: Fields,
    judgement: Judgement<'_>,
) -> Fields
    ensures { CarriesOut R.Rack.records R.Rack.wrote channel fields (edits (judged judgement.entry))
        rack.old rack.new result }
{
    let Judgement::Accepted(command) = judgement else {
        return fields;
    };
    make(rack, channel, fields, command.changes())
}

// Makes changes, if there are any.
fn make<R: Rack>(rack: &mut R, channel: u8, fields: Fields, changes: Changes<'_>) -> Fields
    ensures { CarriesOut R.Rack.records R.Rack.wrote channel fields (edits_in changes.entry)
        rack.old rack.new result }
{
    if changes.field.is_none() && changes.flag.is_none() {
        return fields;
    }
    write_both(rack, channel, changes);
    rack.fields(channel).unwrap_or(fields)
}

// Each by one write, in their order.
fn write_both<R: Rack>(rack: &mut R, channel: u8, changes: Changes<'_>)
    ensures { WritesAll R.Rack.records R.Rack.wrote channel (edits_in changes.entry)
        rack.old rack.new }
{
    write(rack, channel, changes.field);
    write(rack, channel, changes.flag);
}

// Writes a change, if there is one. That the rack takes it was judged before.
fn write<R: Rack>(rack: &mut R, channel: u8, change: Option<Change<'_>>)
    ensures { let edit = option_to_list (option_map edit_of change.entry) in
        WritesAll R.Rack.records R.Rack.wrote channel edit rack.old rack.new }
{
    if let Some(change) = change {
        let _ = rack.write(channel, change);
    }
}
