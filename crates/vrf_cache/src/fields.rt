// `set_field_on_group`: a slot of a group takes a checksum and a name. They are parameters one by one: a struct of them would be made by each
// caller for one call, and its checksum stored and its name compared and copied one by one.
ghost use Rattle.std.specs.Prelude.{◌≡◌, false, ◌<◌};
ghost use Rattle.std.proofs.Math.Option.{some};
ghost use Rattle.vrf_text.specs.Text.{IsText};
ghost use Rattle.vrf_path.specs.Text.{same};
ghost use Rattle.vrf_model.specs.Book.{filled};
ghost use Rattle.vrf_model.specs.Setting.{done, dropped_step, set_field, set_field_at};
ghost use Rattle.vrf_store.specs.Store.{header_of};
ghost use Rattle.vrf_store.specs.Inner.WellFormed.{WellFormed};
ghost use Rattle.vrf_store.specs.Inner.Stepped.{held};
ghost use Rattle.vrf_store.specs.Inner.Fields.{Renamed};
ghost use Rattle.vrf_cache.specs.Inner.Taken.{StepBy};
ghost use Rattle.vrf_cache.specs.Inner.Fields.{FieldToChange, FieldToAdd, name_at, place_of, setting, slot_of};

use crate::full::fits;
use crate::texts::keep_text;
use vrf_bitio::Refusal;
use vrf_path::same;
use vrf_store::counters::{Counter, step};
use vrf_store::fields::{push_field, set_field_row};
use vrf_store::look::{find_field, find_index, group_slots};
use vrf_store::parts::{field_rows, texts};
use vrf_store::rows::text_span;
use vrf_table::{TextSpan, row_text};

fn row_name(m: &[u8], e: u32) -> &[u8]
    requires { WellFormed m.now × (e < (header_of m.now).fields) }
    ensures { result.now ≡ name_at m.now e }
{
    row_text(field_rows(m), texts(m), e)
}

// Adds a row for an empty slot.
fn add_field(
    m: &mut [u8],
    place: u32,
    slot: u32,
    checksum: u32,
    name: &[u8],
) -> Result<bool, Refusal>
    requires { FieldToAdd m.old name.now place slot }
    ensures { StepBy (setting (held m.old) place slot checksum name.now) m.old m.new result }
{
    fits(m, 0, 0, 1, 0, name.len() as u64)?;
    let span = keep_text(m, name);
    push_field(m, place, slot, span, checksum);
    Ok(true)
}

// The name of row e stays at its position.
fn set_checksum(m: &mut [u8], e: u32, checksum: u32)
    requires { WellFormed m.old × (e < (header_of m.old).fields) }
    ensures { Renamed m.old m.new e (filled checksum (name_at m.old e)) }
{
    let span = text_span(field_rows(m), e);
    set_field_row(m, e, span, checksum);
}

// Releases the old name first, so that the old and the new name need not both fit.
fn rename_field(m: &mut [u8], e: u32, checksum: u32, name: &[u8]) -> Result<bool, Refusal>
    requires { FieldToChange m.old name.now e × (same (name_at m.old e) name.now ≡ false) }
    ensures { StepBy (setting (held m.old) (place_of m.old e) (slot_of m.old e) checksum name.now) m.old m.new result }
{
    let old = row_name(m, e).len() as u64;
    fits(m, 0, 0, 0, old, name.len() as u64)?;
    set_field_row(m, e, TextSpan { at: 0, len: 0 }, checksum);
    let span = keep_text(m, name);
    set_field_row(m, e, span, checksum);
    step(m, Counter::Renamed);
    Ok(true)
}

// An equal name is not written again.
fn change_field(m: &mut [u8], e: u32, checksum: u32, name: &[u8]) -> Result<bool, Refusal>
    requires { FieldToChange m.old name.now e }
    ensures { StepBy (setting (held m.old) (place_of m.old e) (slot_of m.old e) checksum name.now) m.old m.new result }
{
    if same(row_name(m, e), name) {
        set_checksum(m, e, checksum);
        return Ok(true);
    }
    rename_field(m, e, checksum, name)
}

// Counts a field for which there is no slot.
fn drop_field(m: &mut [u8]) -> Result<bool, Refusal>
    requires { WellFormed m.old }
    ensures { StepBy (done false (held m.old) dropped_step) m.old m.new result }
{
    step(m, Counter::Dropped);
    Ok(false)
}

// Sets the slot, or drops the field if the group has too few slots.
fn set_slot(
    m: &mut [u8],
    place: u32,
    slot: u32,
    checksum: u32,
    name: &[u8],
) -> Result<bool, Refusal>
    requires { WellFormed m.old × IsText name.now }
    ensures { StepBy (set_field_at slot checksum name.now (held m.old) (some place)) m.old m.new result }
{
    if group_slots(m, place) <= slot {
        return drop_field(m);
    }
    match find_field(m, place, slot) {
        Some(e) => change_field(m, e, checksum, name),
        None => add_field(m, place, slot, checksum, name),
    }
}

pub fn set_field_on_group(
    m: &mut [u8],
    index: u32,
    handle: u32,
    checksum: u32,
    name: &[u8],
) -> Result<bool, Refusal>
    requires { WellFormed m.old × IsText name.now }
    ensures { StepBy (set_field index handle checksum name.now (held m.old)) m.old m.new result }
{
    match find_index(m, index) {
        Some(place) => set_slot(m, place, handle, checksum, name),
        None => drop_field(m),
    }
}
