//! Where the fields of a record stand in its bytes, and their ranges.

use std::ops::Range;

/// How many bytes a record has.
pub const RECORD_LENGTH: usize = 80;

/// How many of them are text.
pub const TEXT_LENGTH: usize = 45;

pub const FIELDS_LENGTH: usize = 20;

pub const READING_LENGTH: usize = 8;

pub const DEVICE_TYPE_AT: usize = 0;

pub const IDENTIFICATION_AT: usize = 1;

pub const POLLING_ADDRESS_AT: usize = 4;

pub const PREAMBLES_AT: usize = 5;

pub const ASSEMBLY_NUMBER_AT: usize = 6;

pub const FLAGS_AT: usize = 9;

pub const SETPOINT_AT: usize = 10;

pub const CEILING_AT: usize = 14;

pub const FLOW_UNIT_AT: usize = 15;

pub const FULL_SCALE_AT: usize = 16;

pub const FLOW_AT: usize = 20;

pub const TEMPERATURE_AT: usize = 24;

pub const TEXT_AT: usize = 28;

pub const RESERVED_AT: usize = 73;

/// Where the tag stands in a record's text.
pub const TAG: Range<usize> = 0..6;

/// Where the descriptor stands there.
pub const DESCRIPTOR: Range<usize> = 6..18;

/// Where the date stands there.
pub const DATE: Range<usize> = 18..21;

/// Where the message stands there.
pub const MESSAGE: Range<usize> = 21..TEXT_LENGTH;

/// Tag, descriptor and date, which stand side by side.
pub const LABELS: Range<usize> = 0..21;

/// The bits of the flags byte; its other bits are 0.
pub const CHANGED_BIT: u8 = 0;

pub const KEY_BIT: u8 = 1;

pub const MAX_FLAGS: u8 = 3;

/// The largest polling address.
pub const MAX_POLLING_ADDRESS: u8 = 15;

/// The fewest preambles that a record may ask for before a reply.
pub const MIN_PREAMBLES: u8 = 2;

/// The most of them.
pub const MAX_PREAMBLES: u8 = 15;

pub const MAX_CEILING: u8 = 100;

/// Identification and assembly numbers have 24 bits.
pub const MAX_U24: u32 = 0xFF_FFFF;
