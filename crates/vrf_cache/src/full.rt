// Compares the counts that a step would leave with the allowances.
ghost use Rattle.std.specs.Prelude.{◌≡◌, ◌≤◌, length};
ghost use Rattle.vrf_table.specs.Inner.Answers.{entry};
ghost use Rattle.vrf_store.specs.Store.{allowances_of, header_of};
ghost use Rattle.vrf_store.specs.Inner.WellFormed.{WellFormed};
ghost use Rattle.vrf_cache.specs.Inner.Passed.{passed_by, passes_by, FitsBy};

use vrf_bitio::{Reason, Refusal};
use vrf_store::parts::{
    fields, fields_allowed, groups, groups_allowed, guids, guids_allowed, held, text_allowed,
};

// The lowest allowance that these counts pass, 1 to 4: the detail of refusal 42 in document 01's table, so a number and no enum.
fn passed(m: &[u8], guids: u64, groups: u64, fields: u64, text: u64) -> Option<u32>
    requires { 128 ≤ length m.now }
    ensures { entry result ≡ passed_by (allowances_of m.now) guids groups fields text }
{
    if (guids_allowed(m) as u64) < guids {
        return Some(1);
    }
    if (groups_allowed(m) as u64) < groups {
        return Some(2);
    }
    if (fields_allowed(m) as u64) < fields {
        return Some(3);
    }
    if (text_allowed(m) as u64) < text {
        return Some(4);
    }
    None
}

// Whether a step stays within the allowances; otherwise refusal 42 with the lowest allowance that it would pass. The step adds g GUID
// records, r groups and f fields, and holds n text bytes in place of `gone` bytes that are held. (Five numbers: a struct would be made at each call
// only to be added up here.)
pub fn fits(m: &[u8], g: u64, r: u64, f: u64, gone: u64, n: u64) -> Result<(), Refusal>
    requires { WellFormed m.now × (g ≤ 1) × (r ≤ 1) × (f ≤ 1) × (gone ≤ (header_of m.now).held) × (n ≤ 4096) }
    ensures { FitsBy (passes_by m.now g r f gone n) result }
{
    let guids = guids(m) as u64 + g;
    let groups = groups(m) as u64 + r;
    let fields = fields(m) as u64 + f;
    let text = held(m) as u64 - gone + n;
    match passed(m, guids, groups, fields, text) {
        Some(which) => Err(Refusal {
            reason: Reason::AllowancePassed,
            a: which as u64,
            b: 0,
        }),
        None => Ok(()),
    }
}
