// The relay: a medium that hears all and offers exactly what it heard.
ghost use Rattle.medium.specs.Single.{filled_prop};
ghost use Rattle.medium.specs.Store.{Filled};

use super::medium::{Medium, NoSpace};
use super::store::{admits, capacity, is_listed, put};
use sheet::Contents;

// Messages in one area of the caller's.
#[derive(Drop)]
pub struct Relay<'a> {
    sheet: &'a Contents,
    area: &'a mut [u8],
    used: usize,
    ghost filled: { Filled used area.now } by { filled_prop used area.now },
}

impl<'a> Relay<'a> {
    ghost use Rattle.medium.specs.Relays.{New};
    ghost use Rattle.sheet.specs.Kept.{contents_of};

    // A relay on the sheet, which has heard nothing.
    #[tactic(auto, using(crate::proofs::Relaying::none_heard))]
    pub fn new(sheet: &'a Contents, area: &'a mut [u8]) -> Relay<'a>
        ensures { New (contents_of sheet.now) area.entry result }
    {
        Relay {
            sheet,
            area,
            used: 0,
        }
    }
}

impl Medium for Relay<'_> {
    ghost use Rattle.medium.specs.Media.{Hears, hears_takes};
    ghost use Rattle.medium.specs.Relays.{Takes, relay_sound, relayed};

    ghost meaning = { λ s. relayed s };

    ghost sound = { λ s. relay_sound s };

    ghost steps = { λ s m t. Takes s m t };

    ghost stepped = { λ s t m h. hears_takes _ _ m h.hears };

    #[tactic(auto, using(crate::proofs::Relaying::no_room, crate::proofs::Relaying::filled_more))]
    fn take(&mut self, bytes: &[u8]) -> Result<(), NoSpace> {
        if !admits(capacity(self.area.len()), self.used, bytes) {
            return Err(NoSpace);
        }
        put(self.area, self.used, bytes);
        self.used += bytes.len() + 1;
        Ok(())
    }

    #[tactic(auto, using(crate::proofs::Relaying::relay_offers))]
    fn offers(&self, bytes: &[u8]) -> bool {
        is_listed(&self.area[0..self.used], bytes)
    }
}
