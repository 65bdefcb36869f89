// 01's sizes, and the places of its section "The table", each by name and once: what specs/Layout.antt says, and Reader.antt of groups, for code.

// ---- the table
pub const TABLE_HEADER: usize = 8;

pub const TABLE_VERSION: u8 = 1;

pub const RECORD_SIZE: usize = 256;

pub const MOST_RECORDS: usize = 240;

// ---- the record, byte by byte
pub const IMSI_SIZE: usize = 16;

pub const CHANGE_AT: usize = 16;

pub const SUBSCRIPTION_AT: usize = 20;

pub const RESTRICTION_AT: usize = 24;

pub const PLMN_COUNT_AT: usize = 28;

pub const PLMNS_AT: usize = 32;

pub const PLMNS_SIZE: usize = 24;

pub const PLMN_SIZE: usize = 3;

pub const MOST_PLMNS: usize = 8;

pub const PURGED_AT: usize = 56;

pub const MME_AT: usize = 64;

pub const SGSN_AT: usize = 129;

pub const MOST_NAME: usize = 64;

pub const AMBR_AT: usize = 196;

pub const IMEI_AT: usize = 204;

// The shortest IMSI.
pub const LEAST_IMSI: usize = 6;

// The shortest IMEI; the other is one digit longer.
pub const LEAST_IMEI: usize = 14;

// The longest IMSI and IMEI.
pub const MOST_DIGITS: usize = 15;

// ---- the buffers of a request
pub const LEAST_REQUEST: usize = 20;

pub const MOST_REQUEST: usize = 4096;

pub const LEAST_ANSWER: usize = 4352;

// One entry of the cancel buffer, and all of it: two entries.
pub const ENTRY_SIZE: usize = 68;

pub const CANCEL_SIZE: usize = 136;

// ---- a message
// The header, RFC 6733 section 3.
pub const MESSAGE_HEADER: usize = 20;

// So many groups may be entered, one in another.
pub const MOST_GROUPS: usize = 8;
