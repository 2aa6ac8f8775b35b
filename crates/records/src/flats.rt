// Records to flat numbers.
ghost use Rattle.std.specs.Prelude.{◌≡◌, ◌<◌};
ghost use Rattle.records.specs.Records.{taken_most};
ghost use Rattle.records.specs.Flat.{flat_of, added};

use crate::{Flat, Ration};

// How many rations are taken of a slice: one more than a sheet may have.
const MOST: usize = 65;

impl Flat {
    // One ration more.
    fn push(&mut self, ration: Ration)
        requires { self.old.count < taken_most }
        ensures { self.new ≡ added self.old ration }
    {
        let at = 4 * self.count;
        self.numbers[at] = ration.tank;
        self.numbers[at + 1] = ration.first;
        self.numbers[at + 2] = ration.last;
        self.numbers[at + 3] = ration.volume;
        self.count += 1;
    }
}

// The one function that reads the records: the others hand on what it gives.
pub fn flatten(rations: &[Ration]) -> Flat
    ensures { result ≡ flat_of rations.now }
{
    let mut flat = Flat {
        count: 0,
        numbers: [0u32; 260],
    };
    for i in 0..rations.len().min(MOST) {
        flat.push(rations[i]);
    }
    flat
}
