// When the data of an AVP is right (5004): an IMSI, a name, a PLMN, an IMEI.
#![tactic(auto, unfolding(paper::specs::Request::imsi_digits, paper::specs::Request::is_name, paper::specs::Request::three_bytes, paper::specs::Request::imei_digits))]

ghost use Rattle.std.specs.Prelude.{◌≡◌};
ghost use Rattle.paper.specs.Request.{imsi_digits, is_name, three_bytes, imei_digits};

use paper::layout::{LEAST_IMEI, LEAST_IMSI, MOST_DIGITS, MOST_NAME, PLMN_SIZE};
use wire::stretch::{all_digits, name_bytes};

pub fn is_imsi(s: &[u8]) -> bool
    ensures { result ≡ imsi_digits s.now }
{
    (LEAST_IMSI..=MOST_DIGITS).contains(&s.len()) & all_digits(s)
}

// The name of a node, a host or a realm.
pub fn is_name(s: &[u8]) -> bool
    ensures { result ≡ is_name s.now }
{
    (1..=MOST_NAME).contains(&s.len()) & name_bytes(s)
}

pub fn is_plmn(s: &[u8]) -> bool
    ensures { result ≡ three_bytes s.now }
{
    s.len() == PLMN_SIZE
}

pub fn is_imei(s: &[u8]) -> bool
    ensures { result ≡ imei_digits s.now }
{
    ((s.len() == LEAST_IMEI) | (s.len() == MOST_DIGITS)) & all_digits(s)
}
