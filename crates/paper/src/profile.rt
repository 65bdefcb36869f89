// The application as numbers, each by name and once, as in specs/Profile.antt: its own, its commands' and the codes of the AVPs that its requests and
// answers hold. Which AVPs a command requires and uses is crate request's part.
pub const APPLICATION: u32 = 16777251;

pub const ULR: u32 = 316;

pub const PUR: u32 = 321;

pub const NOR: u32 = 323;

// ---- codes of RFC 6733 section 4.5
pub const USER_NAME: u32 = 1;

pub const SESSION_ID: u32 = 263;

pub const ORIGIN_HOST: u32 = 264;

pub const VENDOR_ID: u32 = 266;

pub const RESULT_CODE: u32 = 268;

pub const AUTH_SESSION_STATE: u32 = 277;

pub const FAILED_AVP: u32 = 279;

pub const DESTINATION_REALM: u32 = 283;

pub const PROXY_INFO: u32 = 284;

pub const ORIGIN_REALM: u32 = 296;

pub const EXPERIMENTAL_RESULT: u32 = 297;

pub const EXPERIMENTAL_RESULT_CODE: u32 = 298;

// ---- codes of TS 29.272 clause 7.3.1, of vendor 10415
pub const VENDOR_3GPP: u32 = 10415;

pub const BANDWIDTH_DL: u32 = 515;

pub const BANDWIDTH_UL: u32 = 516;

pub const RAT_TYPE: u32 = 1032;

pub const SUBSCRIPTION_DATA: u32 = 1400;

pub const TERMINAL_INFORMATION: u32 = 1401;

pub const IMEI: u32 = 1402;

pub const ULR_FLAGS: u32 = 1405;

pub const ULA_FLAGS: u32 = 1406;

pub const VISITED_PLMN_ID: u32 = 1407;

pub const SUBSCRIBER_STATUS: u32 = 1424;

pub const ACCESS_RESTRICTION_DATA: u32 = 1426;

pub const AMBR: u32 = 1435;

pub const PUA_FLAGS: u32 = 1442;

pub const NOR_FLAGS: u32 = 1443;

pub const PUR_FLAGS: u32 = 1635;
