// `set_net_guid_path`: a GUID takes a path and an outer, as parameters one by one, like those of a field.
ghost use Rattle.std.specs.Prelude.{◌≡◌, false};
ghost use Rattle.vrf_text.specs.Text.{IsText};
ghost use Rattle.vrf_model.specs.Lookup.{place_or};
ghost use Rattle.vrf_model.specs.Setting.{new_guid, has_path, set_guid};
ghost use Rattle.vrf_table.specs.Table.{key};
ghost use Rattle.vrf_store.specs.Store.{store_of};
ghost use Rattle.vrf_store.specs.Inner.WellFormed.{WellFormed};
ghost use Rattle.vrf_store.specs.Inner.Stepped.{held};
ghost use Rattle.vrf_cache.specs.Inner.Taken.{StepBy};
ghost use Rattle.vrf_cache.specs.Inner.Guids.{setting, with_new, GuidToAdd, with_other, GuidToChange};

use crate::full::fits;
use crate::texts::keep_text;
use vrf_bitio::Refusal;
use vrf_path::same;
use vrf_store::counters::{Counter, step};
use vrf_store::guids::{push_guid, set_guid};
use vrf_store::look::{find_guid, guid_outer, guid_path};
use vrf_table::TextSpan;

// Appends a record for a GUID that has none.
fn add_guid(m: &mut [u8], guid: u32, path: &[u8], outer: u32) -> Result<(), Refusal>
    requires { GuidToAdd m.old path.now guid }
    ensures { StepBy (setting (with_new (held m.old) (new_guid guid path.now outer))) m.old m.new result }
{
    fits(m, 1, 0, 0, 0, path.len() as u64)?;
    let span = keep_text(m, path);
    push_guid(m, guid, span, outer);
    step(m, Counter::Guid);
    Ok(())
}

// Releases the old path first, so that the old and the new path need not both fit.
fn change_guid(m: &mut [u8], e: u32, path: &[u8], outer: u32) -> Result<(), Refusal>
    requires { GuidToChange m.old path.now e }
    ensures { StepBy (setting (with_other (held m.old) e (new_guid (key (store_of m.old).guid_rows e) path.now outer))) m.old m.new result }
{
    let gone = guid_path(m, e).len() as u64;
    fits(m, 0, 0, 0, gone, path.len() as u64)?;
    set_guid(m, e, TextSpan { at: 0, len: 0 }, outer);
    let span = keep_text(m, path);
    set_guid(m, e, span, outer);
    step(m, Counter::Guid);
    Ok(())
}

fn is_set(m: &[u8], e: u32, path: &[u8], outer: u32) -> bool
    requires { GuidToChange m.now path.now e }
    ensures { result ≡ place_or (has_path path.now outer) false (held m.now).guids e }
{
    same(path, guid_path(m, e)) && outer == guid_outer(m, e)
}

// An identical setting does nothing.
pub fn set_net_guid_path(m: &mut [u8], guid: u32, path: &[u8], outer: u32) -> Result<(), Refusal>
    requires { WellFormed m.old × IsText path.now }
    ensures { StepBy (set_guid guid path.now outer (held m.old)) m.old m.new result }
{
    match find_guid(m, guid) {
        Some(e) => {
            if is_set(m, e, path, outer) {
                return Ok(());
            }
            change_guid(m, e, path, outer)
        }
        None => add_guid(m, guid, path, outer),
    }
}
