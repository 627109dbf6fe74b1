// The tool `tally` of document 01: prints a block's seven counts, or its refusal, as lines of text. Each function takes the buffer and a place
// in it: with a writer that holds both, each contract would also say that it keeps the borrow of the buffer.
#![tactic(auto)]

ghost use Rattle.std.specs.Prelude.{◌≡◌, ◌+◌, ◌≤◌, length};
ghost use Rattle.vrf_bitio.specs.Reasons.{number};
ghost use Rattle.vrf_model.specs.Answers.{counts_of, tables_of};
ghost use Rattle.vrf_tally.specs.Tally.{line, lines, count_lines, refusal_lines, answer_lines, answered, tally};
ghost use Rattle.vrf_tally.specs.Printed.{Printed};
ghost use Rattle.vrf_tally.specs.Inner.Counts.{held_counts, path_counts};

use vrf_bitio::{Reason, Refusal};
use vrf_model::{Allowances, CheckpointTables};
use vrf_names::{decimal_len, put_decimal};
use vrf_schema::calls::open;
use vrf_schema::reading::read_checkpoint_tables;
use vrf_words::put_part;

// A line at place `at`. Answers the place after it. A name has at most eight bytes, so a line has at most thirty. (`write!` says which bytes
// it writes only for a `String`, and there is no heap.)
fn put_line(out: &mut [u8], at: usize, name: &[u8], n: u64) -> usize
    requires { (length name.now ≤ 8) × (at + 30 ≤ length out.old) }
    ensures { (result ≤ at + 30) × Printed (line name.now n) out.old at out.new result }
{
    put_part(out, at, name);
    let sign = at + name.len();
    out[sign] = b'=';
    put_decimal(n, out, sign + 1);
    let end = sign + 1 + decimal_len(n);
    out[end] = b'\n';
    end + 1
}

// The first four counts: GUIDs, groups, filled slots and the end byte.
fn put_held(out: &mut [u8], t: CheckpointTables) -> usize
    requires { 120 ≤ length out.old }
    ensures { (result ≤ 120) × Printed (lines (held_counts (counts_of t))) out.old 0 out.new result }
{
    let guids = put_line(out, 0, b"guids", t.guid_count as u64);
    let groups = put_line(out, guids, b"groups", t.group_count as u64);
    let fields = put_line(out, groups, b"fields", t.exported_fields);
    put_line(out, fields, b"frame", t.frame_offset as u64)
}

// The last three counts, which show how the paths were sent, at place `at`.
fn put_paths(out: &mut [u8], at: usize, t: CheckpointTables) -> usize
    requires { at + 90 ≤ length out.old }
    ensures { Printed (lines (path_counts (counts_of t))) out.old at out.new result }
{
    let indexed = put_line(out, at, b"indexed", t.indexed_paths as u64);
    let literals = put_line(out, indexed, b"literals", t.literal_paths as u64);
    put_line(out, literals, b"resolved", t.resolved_path_indices as u64)
}

// The seven counts, at the front of a buffer.
fn put_counts(out: &mut [u8], t: CheckpointTables) -> usize
    requires { 512 ≤ length out.old }
    ensures { Printed (count_lines (counts_of t)) out.old 0 out.new result }
{
    let held = put_held(out, t);
    put_paths(out, held, t)
}

// A refusal and its details, at the front of a buffer.
fn put_refusal(out: &mut [u8], r: Refusal) -> usize
    requires { 512 ≤ length out.old }
    ensures { Printed (refusal_lines (number r.reason) r.a r.b) out.old 0 out.new result }
{
    let number = put_line(out, 0, b"refusal", r.reason.number() as u64);
    let a = put_line(out, number, b"a", r.a);
    put_line(out, a, b"b", r.b)
}

// What the block reader answered, at the front of a buffer.
fn put_answer(out: &mut [u8], read: Result<CheckpointTables, Refusal>) -> usize
    requires { 512 ≤ length out.old }
    ensures { Printed (answer_lines (tables_of read)) out.old 0 out.new result }
{
    match read {
        Ok(t) => put_counts(out, t),
        Err(r) => put_refusal(out, r),
    }
}

// The block reader's answer on a book that is opened in the lent memory. The allowances need 29,332 bytes (docs/LAYOUT.md).
fn read_into(book: &mut [u8], input: &[u8]) -> Result<CheckpointTables, Refusal>
    requires { (29332 ≤ length book.old) × (length input.now ≤ 65536) }
    ensures { tables_of result ≡ answered input.now }
{
    let allowed = Allowances {
        guids: 128,
        groups: 32,
        fields: 128,
        text: 8192,
        literals: 128,
    };
    open(book, allowed)?;
    read_checkpoint_tables(book, input, 0, 8 * (input.len() as u64))
}

// The block reader's answer on a new book.
fn read(input: &[u8]) -> Result<CheckpointTables, Refusal>
    requires { length input.now ≤ 65536 }
    ensures { tables_of result ≡ answered input.now }
{
    let mut book = [0u8; 29332];
    read_into(&mut book, input)
}

// Writes the text that the tool prints for an input to the front of `out`, and answers its length.
pub fn tally(input: &[u8], out: &mut [u8; 512]) -> usize
    ensures { (result ≤ 512) × Printed (tally input.now) out.old 0 out.new result }
{
    if 65536 < input.len() {
        return put_refusal(
            out,
            Refusal {
                reason: Reason::WindowTooLarge,
                a: 0,
                b: 0,
            },
        );
    }
    put_answer(out, read(input))
}
