// `clear`: drops all records, groups and fields, and steps both generations.
ghost use Rattle.vrf_model.specs.Setting.{clear};
ghost use Rattle.vrf_store.specs.Inner.WellFormed.{WellFormed};
ghost use Rattle.vrf_store.specs.Inner.Stepped.{held};
ghost use Rattle.vrf_cache.specs.Inner.Taken.{StepBy};

use vrf_bitio::Refusal;
use vrf_store::counters::{Counter, step};
use vrf_store::open::clear_book;

pub fn clear(m: &mut [u8]) -> Result<(), Refusal>
    requires { WellFormed m.old }
    ensures { StepBy (clear (held m.old)) m.old m.new result }
{
    clear_book(m);
    step(m, Counter::Schema);
    step(m, Counter::Guid);
    Ok(())
}
