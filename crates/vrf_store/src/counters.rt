// The five counters of a book: 64-bit numbers that step modulo 2^64.
ghost use Rattle.std.specs.Prelude.{◌≡◌, ◌≤◌, length};
ghost use Rattle.vrf_store.specs.Store.{counters_of};
ghost use Rattle.vrf_store.specs.Inner.Counters.{CountersStepped, step_of, word_of};

use vrf_words::{get64, put64};

#[derive(Clone, Copy, Debug, PartialEq, Eq)]
pub enum Counter {
    Schema,
    Guid,
    Dropped,
    Replaced,
    Renamed,
}

impl Counter {
    // The first of its two words in the header.
    fn word(self) -> usize
        ensures { result ≡ word_of self }
    {
        match self {
            Counter::Schema => 11,
            Counter::Guid => 13,
            Counter::Dropped => 15,
            Counter::Replaced => 17,
            Counter::Renamed => 19,
        }
    }
}

#[derive(Clone, Copy)]
pub struct BookCounters {
    pub schema: u64,
    pub guid: u64,
    pub dropped: u64,
    pub replaced: u64,
    pub renamed: u64,
}

pub fn read_counters(m: &[u8]) -> BookCounters
    requires { 128 ≤ length m.now }
    ensures { counters_of m.now ≡ record { schema = result.schema; guid = result.guid; dropped = result.dropped; replaced = result.replaced; renamed = result.renamed } }
{
    BookCounters {
        schema: get64(m, 11),
        guid: get64(m, 13),
        dropped: get64(m, 15),
        replaced: get64(m, 17),
        renamed: get64(m, 19),
    }
}

// Adds one to a counter.
pub fn step(m: &mut [u8], counter: Counter)
    requires { 128 ≤ length m.old }
    ensures { CountersStepped m.old m.new (step_of counter) }
{
    let i = counter.word();
    let n = get64(m, i);
    put64(m, i, n.wrapping_add(1));
}
