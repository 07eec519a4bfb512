// The places of the words in a sheet's header, and the fixed numbers of a sheet. Document 01, "Sheet";
// document 02, changes 7 and 8.
pub const LEAST_SIZE: usize = 64;

// before offices had shares
pub const OLD_LEAST_SIZE: usize = 48;

pub const GREATEST_SIZE: usize = 65536;

pub const NEXT_UNUSED: usize = 0;

pub const FIRST_LOT: usize = 1;

pub const FIRST_FREE: usize = 2;

pub const STAGE_COUNT: usize = 3;

pub const PLAN_START: usize = 4;

pub const ACCEPTED_LOTS: usize = 39;

pub const REJECTED_LOTS: usize = 40;

pub const GOOD_UNITS: usize = 41;

pub const MARGINAL_UNITS: usize = 42;

pub const BAD_UNITS: usize = 43;

// each office's share of the records
pub const SHARES_START: usize = 44;

pub const OFFICES: usize = 16;

// the first record after the header
pub const FIRST_RECORD: u32 = 15;

// before offices had shares: the header ended with the totals
pub const OLD_FIRST_RECORD: u32 = 11;

// the last word of every free record
pub const FREE_TAG: u32 = 4294967295;

// the closed lots that the totals may count
pub const MOST_CLOSED: u64 = 4000000;
