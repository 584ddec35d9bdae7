//! A shelf.
ghost use Rattle.std.specs.Prelude.{◌<◌};
ghost use Rattle.arrayvec.specs.ArrayVec.{array_vec_len};
ghost use Rattle.shelf.specs.Rows.{AllLawful, AllFaultless};
ghost use Rattle.shelf.specs.RowLaws.{all_lawful-prop, all_faultless-prop};

use arrayvec::ArrayVec;
use rack::MAX_CHANNELS;
use record::RECORD_LENGTH;

/// The most records of a shelf.
pub const MAX_RECORDS: usize = MAX_CHANNELS as usize;

const _: () = prove!(MAX_RECORDS == 15);

/// A shelf: 1 to 15 records, held as bytes.
#[derive(Drop)]
pub struct Shelf {
    pub(crate) rows: ArrayVec<[u8; RECORD_LENGTH], MAX_RECORDS>,
    ghost some: { 0 < array_vec_len rows },
    ghost lawful: { AllLawful rows.items } by { all_lawful-prop rows.items },
    ghost faultless: { AllFaultless rows.items } by { all_faultless-prop rows.items },
}
