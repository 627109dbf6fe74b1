// What tests/compare times of checkpoint blocks and fields runs: the exported functions, and the unchecked calls, which leave out the check
// of the book. The C interface passes numbers and flags, so `checked` chooses between the two, and a refusal is a 0.
ghost use Rattle.std.specs.Prelude.{◌≤◌, length};
ghost use Rattle.vrf_store.specs.Inner.WellFormed.{WellFormed};

use crate::whole;
use vrf_bitio::Refusal;
use vrf_checkpoint::block;
use vrf_model::{Allowances, CheckpointTables, Ran};
use vrf_reader::fields;
use vrf_schema::calls::open;
use vrf_schema::{reading, writing};
use vrf_writer::write;

// The sum of six of a block's counts. The Rust must give the same sum.
fn summed(t: CheckpointTables) -> u64 {
    let records = (t.guid_count as u64).wrapping_add(t.group_count as u64);
    let paths = (t.literal_paths as u64).wrapping_add(t.resolved_path_indices as u64);
    let rest = t.exported_fields.wrapping_add(t.frame_offset as u64);
    records.wrapping_add(paths).wrapping_add(rest)
}

// The sum of the counts that a block reader answers, 0 if it is refused.
fn counted(t: Result<CheckpointTables, Refusal>) -> u64 {
    match t {
        Ok(t) => summed(t),
        Err(_) => 0,
    }
}

// Reads a block into a well-formed book with the unchecked call.
fn read_unchecked(m: &mut [u8], s: &[u8]) -> u64
    requires { WellFormed m.old }
{
    let mut scratch = [0u8; 4096];
    counted(block::read_checkpoint_tables(&mut whole(s), m, &mut scratch))
}

// Opens a book and reads a block into it. Answers the sum of its counts.
#[unsafe(no_mangle)]
pub extern "C" fn bench_read_block(
    m: &mut [u8],
    guids: u64,
    groups: u64,
    fields: u64,
    text: u64,
    s: &[u8],
    checked: bool,
) -> u64 {
    let allowed = Allowances {
        guids,
        groups,
        fields,
        text,
        literals: guids,
    };
    match open(m, allowed) {
        Err(_) => 0,
        Ok(()) => {
            if checked {
                return counted(reading::read_checkpoint_tables(m, s, 0, whole(s).count as u64));
            }
            read_unchecked(m, s)
        }
    }
}

// Reads n fields runs, one after another, with the exported function. Answers how many exports they have.
fn runs_checked(m: &mut [u8], s: &[u8], n: u32) -> u64 {
    let end = whole(s).count as u64;
    let mut first: u64 = 0;
    let mut sum: u64 = 0;
    for _ in 0..n {
        if end < first {
            return sum;
        }
        match reading::read_net_field_exports(m, s, first, end - first) {
            Err(_) => return sum,
            Ok(Ran { count, pos }) => {
                sum = sum.wrapping_add(count as u64);
                first = first.wrapping_add(pos as u64);
            }
        }
    }
    sum
}

// Reads n fields runs, one after another, with the unchecked call and a scratch buffer for texts. Answers how many exports they have.
fn runs_unchecked(m: &mut [u8], s: &[u8], scratch: &mut [u8], n: u32) -> u64
    requires { WellFormed m.old × (4096 ≤ length scratch.old) }
{
    let mut reader = whole(s);
    let mut sum: u64 = 0;
    for _ in 0..n {
        match fields::read_net_field_exports(&mut reader, m, scratch) {
            Err(_) => return sum,
            Ok(exports) => sum = sum.wrapping_add(exports as u64),
        }
    }
    sum
}

// Reads fields runs into a book. As with `bench_look`, the caller checks the book first, with `bench_check`.
#[unsafe(no_mangle)]
pub extern "C" fn bench_read_runs(m: &mut [u8], s: &[u8], n: u32, checked: bool) -> u64
    requires { WellFormed m.old }
{
    if checked {
        return runs_checked(m, s, n);
    }
    let mut scratch = [0u8; 4096];
    runs_unchecked(m, s, &mut scratch, n)
}

// Writes a book, and answers the length of the block, 0 if the writer is refused. As with `bench_look`, the caller checks the book first, with `bench_check`.
#[unsafe(no_mangle)]
pub extern "C" fn bench_write_block(m: &[u8], out: &mut [u8], checked: bool) -> u64
    requires { WellFormed m.now }
{
    if checked {
        return writing::write_checkpoint_tables(m, out).unwrap_or(0);
    }
    write::write_checkpoint_tables(m, out).unwrap_or(0)
}
