use crate::days::{End, Stood};

/// How many days ended in each way.
#[derive(Clone, Copy, Default)]
pub struct Ends {
    days: u64,
    /// By the place at which power was lost.
    places: [u64; 5],
    no_tally: u64,
    otherwise: u64,
}

impl Ends {
    /// One day more, whose power was lost at this place.
    pub(crate) fn add(&mut self, place: u64, end: End) {
        self.days = self.days.saturating_add(1);
        if let Some(count) = self.places.get_mut(place as usize) {
            *count = count.saturating_add(1);
        }
        match end.stood {
            Stood::AsTallied => {}
            Stood::NoTally => self.no_tally = self.no_tally.saturating_add(1),
            Stood::Otherwise => self.otherwise = self.otherwise.saturating_add(1),
        }
    }

    /// Prints the counts of the days in which the write that loses power lands, or does not.
    pub(crate) fn print(&self, rt: &HostRuntime, lands: bool) -> anyhow::Result<()> {
        let lands = if lands { "lands" } else { "does not land" };
        let [_, staging, committing, installing, starting] = self.places;
        println!(rt; "  the write that loses power {lands}: {} days", self.days)?;
        println!(rt;
            "    power lost at place 1: {staging}, 2: {committing}, 3: {installing}, 4: {starting}"
        )?;
        println!(rt;
            "    no tally, since a format lost power: {}",
            self.no_tally
        )?;
        println!(rt; "    what stands is not the tally's: {}", self.otherwise)?;
        Ok(())
    }
}
