// The AVPs that requests and answers hold, each by its key: the codes of the profile with their vendors, as in specs/Profile.antt.
// The numbers stand once, in the profile.
use crate::profile;
use crate::profile::VENDOR_3GPP;
use dictionary::Key;

// ---- of RFC 6733, without a vendor
pub const USER_NAME: Key = Key {
    vendor: 0,
    code: profile::USER_NAME,
};

pub const SESSION_ID: Key = Key {
    vendor: 0,
    code: profile::SESSION_ID,
};

pub const ORIGIN_HOST: Key = Key {
    vendor: 0,
    code: profile::ORIGIN_HOST,
};

pub const VENDOR_ID: Key = Key {
    vendor: 0,
    code: profile::VENDOR_ID,
};

pub const RESULT_CODE: Key = Key {
    vendor: 0,
    code: profile::RESULT_CODE,
};

pub const AUTH_SESSION_STATE: Key = Key {
    vendor: 0,
    code: profile::AUTH_SESSION_STATE,
};

pub const FAILED_AVP: Key = Key {
    vendor: 0,
    code: profile::FAILED_AVP,
};

pub const DESTINATION_REALM: Key = Key {
    vendor: 0,
    code: profile::DESTINATION_REALM,
};

pub const PROXY_INFO: Key = Key {
    vendor: 0,
    code: profile::PROXY_INFO,
};

pub const ORIGIN_REALM: Key = Key {
    vendor: 0,
    code: profile::ORIGIN_REALM,
};

pub const EXPERIMENTAL_RESULT: Key = Key {
    vendor: 0,
    code: profile::EXPERIMENTAL_RESULT,
};

pub const EXPERIMENTAL_RESULT_CODE: Key = Key {
    vendor: 0,
    code: profile::EXPERIMENTAL_RESULT_CODE,
};

// ---- of vendor 10415
pub const BANDWIDTH_DL: Key = Key {
    vendor: VENDOR_3GPP,
    code: profile::BANDWIDTH_DL,
};

pub const BANDWIDTH_UL: Key = Key {
    vendor: VENDOR_3GPP,
    code: profile::BANDWIDTH_UL,
};

pub const RAT_TYPE: Key = Key {
    vendor: VENDOR_3GPP,
    code: profile::RAT_TYPE,
};

pub const SUBSCRIPTION_DATA: Key = Key {
    vendor: VENDOR_3GPP,
    code: profile::SUBSCRIPTION_DATA,
};

pub const TERMINAL_INFORMATION: Key = Key {
    vendor: VENDOR_3GPP,
    code: profile::TERMINAL_INFORMATION,
};

pub const IMEI: Key = Key {
    vendor: VENDOR_3GPP,
    code: profile::IMEI,
};

pub const ULR_FLAGS: Key = Key {
    vendor: VENDOR_3GPP,
    code: profile::ULR_FLAGS,
};

pub const ULA_FLAGS: Key = Key {
    vendor: VENDOR_3GPP,
    code: profile::ULA_FLAGS,
};

pub const VISITED_PLMN_ID: Key = Key {
    vendor: VENDOR_3GPP,
    code: profile::VISITED_PLMN_ID,
};

pub const SUBSCRIBER_STATUS: Key = Key {
    vendor: VENDOR_3GPP,
    code: profile::SUBSCRIBER_STATUS,
};

pub const ACCESS_RESTRICTION_DATA: Key = Key {
    vendor: VENDOR_3GPP,
    code: profile::ACCESS_RESTRICTION_DATA,
};

pub const AMBR: Key = Key {
    vendor: VENDOR_3GPP,
    code: profile::AMBR,
};

pub const PUA_FLAGS: Key = Key {
    vendor: VENDOR_3GPP,
    code: profile::PUA_FLAGS,
};

pub const NOR_FLAGS: Key = Key {
    vendor: VENDOR_3GPP,
    code: profile::NOR_FLAGS,
};

pub const PUR_FLAGS: Key = Key {
    vendor: VENDOR_3GPP,
    code: profile::PUR_FLAGS,
};
