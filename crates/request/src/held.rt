// What a request holds: the AVPs that its command uses, those inside its Terminal-Information, and the data of what was found.
ghost use Rattle.std.specs.Prelude.{◌≡◌};
ghost use Rattle.std.specs.Option.{option_map};
ghost use Rattle.wire.specs.Number.{num_at};
ghost use Rattle.paper.specs.Request.{has, used, if_used, terminal, imei_of};
ghost use Rattle.paper.specs.Shown.{stretch};
ghost use Rattle.request.specs.Place.{DataIn, FoundIn, data_in, Finds};
ghost use Rattle.request.specs.Held.{Frames};
ghost use Rattle.request.specs.Profile.{key_at};

use crate::noted::Noted;
use crate::place::{AvpList, Spot};
use dictionary::Key;
use paper::keys::{IMEI, TERMINAL_INFORMATION};
use wire::number::get_cut;

impl<'a> Noted<'a> {
    // Its command uses the AVP of this key.
    pub fn uses(&self, key: Key) -> bool
        ensures { result ≡ has (key_at key) (used self.now.request.now) }
    {
        // A match: with `is_some_and` the proof did not close, since the closure's call tells it nothing of the command.
        match self.command {
            Some(command) => command.uses(key),
            None => false,
        }
    }

    // The first AVP of a key, where the command uses that.
    pub fn find_used(&self, key: Key) -> Option<Spot>
        ensures { Finds self.now.request.now (if_used (key_at key) self.now.request.now) result }
    {
        if self.uses(key) {
            self.find_top(key)
        } else {
            None
        }
    }

    // The data of an AVP that was found.
    pub fn data(&self, spot: Spot) -> &'a [u8]
        requires { DataIn self.now.request.now spot }
        ensures { result.now ≡ stretch self.now.request.now spot.from spot.to }
    {
        &self.request[spot.from..spot.to]
    }

    // The data of what was found, no bytes where nothing was.
    pub fn data_of(&self, found: Option<Spot>) -> &'a [u8]
        requires { FoundIn self.now.request.now found }
        ensures { result.now ≡ data_in self.now.request.now found }
    {
        match found {
            Some(spot) => self.data(spot),
            None => &self.request[..0],
        }
    }

    // The same, and told apart where nothing was found.
    pub fn data_if(&self, found: Option<Spot>) -> Option<&'a [u8]>
        requires { FoundIn self.now.request.now found }
        ensures { option_map (λ x. x.now) result ≡ option_map (λ s. stretch self.now.request.now s.from s.to) found }
    {
        let spot = found?;
        Some(self.data(spot))
    }

    // The data of what was found as a number of four bytes.
    pub fn number_if(&self, found: Option<Spot>) -> Option<u32>
        requires { FoundIn self.now.request.now found }
        ensures { result ≡ option_map (λ s. num_at 4 (stretch self.now.request.now s.from s.to) 0) found }
    {
        let spot = found?;
        Some(get_cut(self.data(spot), 0, 4) as u32)
    }

    // The AVPs inside Terminal-Information where they stand, if the command uses that; none where it is not there.
    pub fn terminal_avps(&self) -> AvpList<'a>
        ensures { Frames self.now.request.now (terminal self.now.request.now) result.at result.bytes.now }
    {
        let Some(spot) = self.find_used(TERMINAL_INFORMATION) else {
            return AvpList {
                at: 0,
                bytes: &self.request[..0],
            };
        };
        AvpList {
            at: spot.from,
            bytes: self.data(spot),
        }
    }

    // The IMEI directly in Terminal-Information.
    pub fn find_imei(&self) -> Option<Spot>
        ensures { Finds self.now.request.now (imei_of self.now.request.now) result }
    {
        self.terminal_avps().find(IMEI)
    }
}
