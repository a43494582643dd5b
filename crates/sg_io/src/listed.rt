// Calls that are numbered from 0, and the list of those that are to fail.
ghost use Rattle.std.specs.Prelude.{◌≡◌, [], OnOk, OnErr};

use sg_text::NoMemory;
use std::alloc::Global;
use std::marker::Model;

// A call that is to fail, by its number, after so many bytes.
#[derive(Clone, Copy, Debug, PartialEq, Eq)]
pub struct FailingCall {
    pub call: u64,
    pub taken: u64,
}

// The number of the next call, and the calls that are to fail.
#[derive(Debug, Drop)]
pub struct ListedCalls {
    made: u64,
    failing: Vec<FailingCall>,
}

impl Model for ListedCalls {
    ghost use Rattle.sg_io.specs.Listed.{Calls};

    ghost Value = { Calls };

    ghost view = { λ c. record { made = c.made; failing = c.failing.items } };
}

impl ListedCalls {
    ghost use Rattle.sg_io.specs.Listed.{fails_after, after_call, with_listing};

    // No call was made, and none is to fail.
    pub fn new(alloc: Global) -> Self
        ensures { result ≡ record { made = 0; failing = [] } }
    {
        ListedCalls {
            made: 0,
            failing: Vec::new(alloc),
        }
    }

    // Lets that call fail after so many bytes.
    pub fn fail_at(&mut self, call: u64, taken: u64) -> Result<(), NoMemory>
        ensures ok { OnOk result (self.new ≡ with_listing self.old call taken) }
        ensures err { OnErr result (self.new ≡ self.old) }
    {
        self.failing.push(FailingCall { call, taken })?;
        Ok(())
    }

    // Numbers a call: after how many bytes it fails, if it is listed.
    #[tactic(auto, unfolding(crate::specs::Listed::fails_after))]
    pub fn next(&mut self) -> Option<u64>
        ensures fails { result ≡ fails_after self.old }
        ensures made { self.new ≡ after_call self.old }
    {
        let number = self.made;
        self.made = number.saturating_add(1);
        self.failing
            .iter()
            .rev()
            .find(|f| f.call == number)
            .map(|f| f.taken)
    }
}
