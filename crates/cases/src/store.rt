// A store of codes with room for every table.
use control::table::{Counts, DISPLAYS, OWNERS, STEPS, Store, Table};
use display::code::Code;
use policy::refusal::Refusal;

#[derive(Drop)]
pub struct Codes {
    pub steps: [u8; STEPS],
    pub owners: [u8; OWNERS],
    pub displays: [u16; DISPLAYS],
}

impl Codes {
    pub fn blank() -> Codes {
        Codes {
            steps: [0; STEPS],
            owners: [0; OWNERS],
            displays: [0; DISPLAYS],
        }
    }

    // The table of these counts on the store.
    pub fn table(&self, counts: Counts, start: usize) -> Result<Table<'_, Code>, Refusal> {
        let store = Store {
            steps: &self.steps,
            owners: &self.owners,
            displays: &self.displays,
        };
        Table::new(counts, start, store)
    }
}
