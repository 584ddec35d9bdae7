//! Racks of every kind under one generic function, and tests of them.
#![tactic(auto)]

ghost use Rattle.std.specs.Prelude.{◌≡◌, OnOk};
ghost use Rattle.rack.specs.Meaning.{asked};
ghost use Rattle.rack.specs.Refusals.{numbered};
ghost use Rattle.rack.specs.Writes.{Writes};
ghost use Rattle.racktests.specs.Opened.{opened, opening};

use rack::{Change, Rack, RackRefusal};
use record::Fields;

// The polling address of an opened channel.
const OPENED_ADDRESS: u8 = 7;

/// Opens a channel's key, gives the channel its polling address, and tells its fields.
pub fn open_key<R: Rack>(rack: &mut R, channel: u8) -> Result<Fields, RackRefusal>
    ensures answer { numbered result ≡
        asked (λ c. c.fields) (opened (R.Rack.records rack.old) channel) channel }
    ensures after { R.Rack.records rack.new ≡ opened (R.Rack.records rack.old) channel }
    ensures writes { OnOk result (Writes R.Rack.wrote channel opening rack.old rack.new) }
{
    rack.write(channel, Change::Key(true))?;
    rack.write(channel, Change::PollingAddress(OPENED_ADDRESS))?;
    rack.fields(channel)
}

#[cfg(test)]
mod tests {
    use super::*;
    use combined::{Ceiling, SideBySide};
    use rack::{FileFault, RecordError, blank_record};
    use record::{RECORD_LENGTH, RecordFault, encode};
    use refusals::Refusal;
    use shelf::Shelf;
    use single::Single;
    use std::process::Abort;
    use std::test::Fail;

    // Setpoints in percent, as patterns.
    const FORTY: u32 = 0x4220_0000;

    const FIFTY: u32 = 0x4248_0000;

    const SEVENTY_FIVE: u32 = 0x4296_0000;

    const MINUS_ZERO: u32 = 0x8000_0000;

    // The bytes of a blank record with a ceiling.
    fn bytes_under(ceiling: u8) -> [u8; RECORD_LENGTH] {
        let mut record = blank_record();
        record.fields.ceiling = ceiling;
        encode(&record)
    }

    fn single_under(ceiling: u8) -> Result<Single, FileFault> {
        let mut single = Single::blank();
        single.fill(&bytes_under(ceiling))?;
        Ok(single)
    }

    // A file of two records.
    fn file_under(first: u8, second: u8) -> [u8; 160] {
        let mut file = [0; 160];
        let (one, two) = file.split_at_mut(RECORD_LENGTH);
        one.copy_from_slice(&bytes_under(first));
        two.copy_from_slice(&bytes_under(second));
        file
    }

    fn shelf_under(first: u8, second: u8) -> Result<Shelf, FileFault> {
        let mut shelf = Shelf::blank();
        shelf.fill(&file_under(first, second))?;
        Ok(shelf)
    }

    // Opens a channel that there is, and then one that there is not.
    fn opens<R: Rack>(rt: &impl Abort, rack: &mut R, channel: u8, absent: u8) -> Result<(), Fail> {
        let fields = open_key(rack, channel)?;
        assert!(rt; fields.key_open);
        assert_eq!(rt; fields.polling_address, 7);
        let refusal = open_key(rack, absent).err();
        assert_eq!(rt; refusal, Some(RackRefusal::Call(Refusal::NoChannel)));
        Ok(())
    }

    #[test]
    fn every_rack(rt: HostRuntime) -> Result<(), Fail> {
        opens(&rt, &mut single_under(60)?, 0, 1)?;
        opens(&rt, &mut shelf_under(80, 90)?, 1, 2)?;
        opens(
            &rt,
            &mut Ceiling {
                below: single_under(60)?,
                percent: 40,
            },
            0,
            1,
        )?;
        opens(
            &rt,
            &mut SideBySide {
                left: shelf_under(80, 90)?,
                right: single_under(60)?,
            },
            2,
            3,
        )
    }

    #[test]
    fn nested(rt: HostRuntime) -> Result<(), Fail> {
        let mut rack = Ceiling {
            below: SideBySide {
                left: shelf_under(80, 90)?,
                right: Ceiling {
                    below: single_under(60)?,
                    percent: 40,
                },
            },
            percent: 70,
        };
        assert_eq!(rt; rack.count(), 3);
        assert_eq!(rt; rack.fields(0)?.ceiling, 70);
        assert_eq!(rt; rack.fields(2)?.ceiling, 40);
        opens(&rt, &mut rack, 2, 3)?;
        assert_eq!(rt;
            rack.write(2, Change::Setpoint(FIFTY)),
            Err(RackRefusal::TooLarge)
        );
        assert_eq!(rt; RackRefusal::TooLarge.number(), 3);
        rack.write(2, Change::Setpoint(FORTY))?;
        assert_eq!(rt;
            rack.write(1, Change::Setpoint(SEVENTY_FIVE)),
            Err(RackRefusal::TooLarge)
        );
        rack.write(1, Change::Setpoint(FIFTY))?;
        rack.write(0, Change::Setpoint(MINUS_ZERO))?;
        assert_eq!(rt; rack.fields(2)?.setpoint, FORTY);
        let SideBySide { left, right } = rack.below;
        assert_eq!(rt; left.fields(0)?.setpoint, 0);
        assert_eq!(rt; left.fields(1)?.setpoint, FIFTY);
        assert_eq!(rt; left.fields(1)?.ceiling, 90);
        let single = right.below.fields(0)?;
        assert_eq!(rt; single.ceiling, 60);
        assert_eq!(rt; single.setpoint, FORTY);
        assert!(rt; single.key_open);
        Ok(())
    }

    // Of 16 records below it a ceiling tells 16, and its channels are the first 15.
    #[test]
    fn sixteen(rt: HostRuntime) -> Result<(), Fail> {
        let mut file = [0; 1200];
        for row in file.chunks_exact_mut(RECORD_LENGTH) {
            row.copy_from_slice(&bytes_under(90));
        }
        let mut left = Shelf::blank();
        left.fill(&file)?;
        let mut rack = Ceiling {
            below: SideBySide {
                left,
                right: single_under(60)?,
            },
            percent: 40,
        };
        assert_eq!(rt; rack.count(), 16);
        assert_eq!(rt; rack.fields(14)?.ceiling, 40);
        assert_eq!(rt;
            rack.fields(15).err(),
            Some(RackRefusal::Call(Refusal::NoChannel))
        );
        assert_eq!(rt;
            rack.write(14, Change::Setpoint(FIFTY)),
            Err(RackRefusal::TooLarge)
        );
        Ok(())
    }

    #[test]
    fn refused_files(rt: HostRuntime) -> Result<(), Fail> {
        let mut shelf = shelf_under(80, 90)?;
        assert_eq!(rt; shelf.fill(&[0; 81]), Err(FileFault::Count));
        assert_eq!(rt; shelf.fill(&[0; 1280]), Err(FileFault::Count));
        assert_eq!(rt; FileFault::Count.refusal().number(), 104);
        let mut file = file_under(10, 20);
        file[85] = 1;
        let fault = FileFault::Record(RecordError {
            number: 1,
            fault: RecordFault::Preambles,
        });
        assert_eq!(rt; shelf.fill(&file), Err(fault));
        assert_eq!(rt; fault.refusal().number(), 103);
        assert_eq!(rt; RecordFault::Preambles.offset(), 5);
        assert_eq!(rt; shelf.count(), 2);
        assert_eq!(rt; shelf.fields(0)?.ceiling, 80);
        let mut single = single_under(60)?;
        assert_eq!(rt; single.fill(&file), Err(FileFault::Count));
        assert_eq!(rt; single.fields(0)?.ceiling, 60);
        Ok(())
    }
}
