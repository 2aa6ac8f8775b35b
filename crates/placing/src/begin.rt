// The first sound placing of a day, or the slots that show why there is none; from nothing, or from a placing of the
// same windows with other volumes.
ghost use Rattle.std.specs.Prelude.{◌≡◌};
ghost use Rattle.placing.specs.Represents.{CanBegin, CanBeginAgain};
ghost use Rattle.placing.specs.WordCalls.{blank_words, BegunIn, BegunAgainIn};

use crate::Words;
use loads::{first, relief};

impl Words {
    // Words in which nothing is placed.
    pub fn new() -> Words
        ensures { result ≡ blank_words }
    {
        Words {
            fed: [0; 96],
            rest: [0; 96],
            high: [0; 96],
            spare: [0; 96],
            seen: [0; 96],
        }
    }

    // Places every ration within the highs, and says whether that can be done. Bit j of `windows[t]` says that slot t
    // is in the window of ration j, `volumes[j]` in how many slots it is to be fed. Where it can't be done, the marks
    // are left on the slots contained in every set of greatest shortfall. A search is made only for a feeding that does
    // not fit straight away, and none is repeated from a slot where one failed.
    pub fn begin(&mut self, windows: &[u64; 96], volumes: &[u8; 64], high: &[u8; 96]) -> bool
        requires { CanBegin windows.now volumes.now high.now self.old.spare }
        ensures { BegunIn result windows.now volumes.now high.now self.new }
    {
        self.high = *high;
        first::place_first(windows, volumes, high, &mut self.fed, &mut self.rest);
        let within = relief::relieve(&mut self.fed, &mut self.rest, high, &mut self.seen);
        relief::widths(&self.fed, &self.rest, &mut self.spare);
        within
    }

    // Whether every ration can be placed within the highs, of the same windows with other volumes, from whatever
    // placing with the volumes `old` the words hold: only what is more or less of each ration is fed or taken out, and
    // a search moves the rest where it must, which is for the cost and not promised. Where it can't be done, the marks
    // are left on slots that show why, and the words hold a placing with these volumes all the same.
    pub fn begin_again(&mut self, old: &[u8; 64], volumes: &[u8; 64]) -> bool
        requires { CanBeginAgain old.now volumes.now self.old.high self.old.fed self.old.rest }
        ensures { BegunAgainIn result old.now volumes.now self.old self.new }
    {
        first::place_again(&mut self.fed, &mut self.rest, &self.high, old, volumes);
        relief::relieve(&mut self.fed, &mut self.rest, &self.high, &mut self.seen)
    }
}
