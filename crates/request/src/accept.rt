// What an accepted request asks: the numbers that the procedures go by, and the parts of the request that hold its digits and its network.
ghost use Rattle.std.specs.Prelude.{◌≡◌};
ghost use Rattle.paper.specs.Request.{value_of};
ghost use Rattle.paper.specs.Asked.{asked_of};
ghost use Rattle.request.specs.Profile.{key_at};
ghost use Rattle.request.specs.Accepted.{Accepts};

use crate::noted::Noted;
use crate::profile::flags_key;
use dictionary::Key;
use paper::Asked;
use paper::keys::{RAT_TYPE, USER_NAME, VISITED_PLMN_ID};

// The data is that of the first AVP, no bytes where none is there; for the IMEI that is told apart.
#[derive(Clone, Copy)]
pub struct Accepted<'a> {
    pub asked: Asked,
    pub user_name: &'a [u8],
    pub visited_plmn: &'a [u8],
    pub imei: Option<&'a [u8]>,
}

fn asked_of(noted: &Noted) -> Asked
    ensures { result ≡ asked_of noted.now.request.now }
{
    let command = noted.header.command;
    let rat = noted.find_top(RAT_TYPE);
    let flags = noted.find_top(flags_key(command));
    Asked {
        command,
        rat: noted.number_if(rat).unwrap_or(0),
        flags: noted.number_if(flags),
    }
}

// The data of the first AVP of a key.
fn value_of<'a>(noted: &Noted<'a>, key: Key) -> &'a [u8]
    ensures { result.now ≡ value_of (key_at key) noted.now.request.now }
{
    noted.data_of(noted.find_top(key))
}

// What a request asks. Of a request that is refused the values are right as well.
pub fn accept<'a>(noted: &Noted<'a>) -> Accepted<'a>
    ensures { Accepts noted.now.request.now result }
{
    Accepted {
        asked: asked_of(noted),
        user_name: value_of(noted, USER_NAME),
        visited_plmn: value_of(noted, VISITED_PLMN_ID),
        imei: noted.data_if(noted.find_imei()),
    }
}
