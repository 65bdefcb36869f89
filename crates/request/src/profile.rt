// The application as data: its commands, and the AVPs that each of them requires and uses. The numbers are those of paper's profile.
#![tactic(auto, unfolding(paper::specs::Profile::command_of, paper::specs::Profile::commands, paper::specs::Profile::command_in, paper::specs::Request::required_in, paper::specs::Request::used_in, paper::specs::Asked::flags_key))]

ghost use Rattle.std.specs.Prelude.{◌≡◌, ◌≤◌, map, length};
ghost use Rattle.paper.specs.Profile.{command_of};
ghost use Rattle.paper.specs.Request.{has, used_in, required_in};
ghost use Rattle.paper.specs.Asked.{flags_key};
ghost use Rattle.request.specs.Profile.{row_of, key_at};

use dictionary::Key;
use paper::keys::{
    AUTH_SESSION_STATE, DESTINATION_REALM, NOR_FLAGS, ORIGIN_HOST, ORIGIN_REALM, PUR_FLAGS,
    RAT_TYPE, SESSION_ID, TERMINAL_INFORMATION, ULR_FLAGS, USER_NAME, VISITED_PLMN_ID,
};
use paper::profile::{NOR, PUR, ULR};

#[derive(Clone, Copy, Debug, PartialEq, Eq)]
pub enum Command {
    Ulr,
    Pur,
    Nor,
}

// The AVPs that some command uses. Those of a ULR come first, in the order of 5005; every command requires the first six.
pub static NOTED_KEYS: [Key; 12] = [
    SESSION_ID,
    AUTH_SESSION_STATE,
    ORIGIN_HOST,
    ORIGIN_REALM,
    DESTINATION_REALM,
    USER_NAME,
    RAT_TYPE,
    ULR_FLAGS,
    VISITED_PLMN_ID,
    TERMINAL_INFORMATION,
    PUR_FLAGS,
    NOR_FLAGS,
];

static PUR_KEYS: [Key; 7] = [
    SESSION_ID,
    AUTH_SESSION_STATE,
    ORIGIN_HOST,
    ORIGIN_REALM,
    DESTINATION_REALM,
    USER_NAME,
    PUR_FLAGS,
];

static NOR_KEYS: [Key; 8] = [
    SESSION_ID,
    AUTH_SESSION_STATE,
    ORIGIN_HOST,
    ORIGIN_REALM,
    DESTINATION_REALM,
    USER_NAME,
    NOR_FLAGS,
    TERMINAL_INFORMATION,
];

impl Command {
    // The AVPs that it requires, in the order of 5005.
    pub fn required(self) -> &'static [Key]
        ensures { map key_at result.now ≡ required_in (row_of (Some self)) }
    {
        match self {
            Command::Ulr => &NOTED_KEYS[..9],
            Command::Pur => &NOTED_KEYS[..6],
            Command::Nor => &NOTED_KEYS[..6],
        }
    }

    // The AVPs that it uses; 5009 goes by these.
    pub fn used(self) -> &'static [Key]
        ensures listed { map key_at result.now ≡ used_in (row_of (Some self)) }
        ensures few { length result.now ≤ 16 }
    {
        match self {
            Command::Ulr => &NOTED_KEYS[..10],
            Command::Pur => &PUR_KEYS,
            Command::Nor => &NOR_KEYS,
        }
    }

    pub fn uses(self, key: Key) -> bool
        ensures { result ≡ has (key_at key) (used_in (row_of (Some self))) }
    {
        self.used().contains(&key)
    }
}

pub fn command_of(code: u32) -> Option<Command>
    ensures { row_of result ≡ command_of code }
{
    match code {
        ULR => Some(Command::Ulr),
        PUR => Some(Command::Pur),
        NOR => Some(Command::Nor),
        _ => None,
    }
}

// The flag word that a command has of its own.
pub fn flags_key(code: u32) -> Key
    ensures { key_at result ≡ flags_key code }
{
    match code {
        ULR => ULR_FLAGS,
        PUR => PUR_FLAGS,
        _ => NOR_FLAGS,
    }
}
