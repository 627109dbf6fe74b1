// The calls on a book but the writer, each with one line as its answer, or with the lines of a dump.
ghost use Rattle.std.specs.Prelude.{◌≤◌, length};

use crate::{dump, lookups};
use vrf_bitio::Refusal;
use vrf_model::{CheckpointTables, Ran};
use vrf_schema::{calls, reading};
use vrf_script::answers::Answers;
use vrf_script::call::{BookCall, Window};
use vrf_script::script::Stop;

fn done(answer: Result<(), Refusal>, what: &str, answers: &mut Answers<'_>) {
    answers.value("", answer.map(|()| what));
}

fn placed(answer: Result<bool, Refusal>, answers: &mut Answers<'_>) {
    answers.value("", answer.map(|p| if p { "placed" } else { "not placed" }));
}

// The count of a run or the GUID of an object, and the position after what was read.
fn ran(answer: Result<Ran, Refusal>, what: &str, answers: &mut Answers<'_>) {
    match answer {
        Ok(Ran { count, pos }) => {
            answers.put(what);
            answers.labelled(" ", count);
            answers.labelled(" at ", pos);
        }
        Err(r) => answers.put(r),
    }
}

// The seven counts of a block.
fn counts(n: CheckpointTables, answers: &mut Answers<'_>) {
    answers.labelled("counts ", n.guid_count);
    answers.labelled(" ", n.group_count);
    answers.labelled(" ", n.exported_fields);
    answers.labelled(" ", n.frame_offset);
    answers.labelled(" ", n.indexed_paths);
    answers.labelled(" ", n.literal_paths);
    answers.labelled(" ", n.resolved_path_indices);
}

fn tables(answer: Result<CheckpointTables, Refusal>, answers: &mut Answers<'_>) {
    match answer {
        Ok(n) => counts(n, answers),
        Err(r) => answers.put(r),
    }
}

// The answer of a call that has one line. A call with a text or a window is given its bytes.
fn say(book: &mut [u8], call: BookCall<'_>, bytes: &[u8], answers: &mut Answers<'_>) {
    match call {
        BookCall::Clear => done(calls::clear(book), "cleared", answers),
        BookCall::AddExportGroup { index, slots, .. } => {
            let answer = calls::add_export_group(book, bytes, index, slots);
            answers.value("place ", answer);
        }
        BookCall::SetFieldOnGroup {
            index,
            handle,
            checksum,
            ..
        } => {
            let answer = calls::set_field_on_group(book, index, handle, checksum, bytes);
            placed(answer, answers);
        }
        BookCall::SetNetGuidPath { guid, outer, .. } => {
            let answer = calls::set_net_guid_path(book, guid, bytes, outer);
            done(answer, "set", answers);
        }
        BookCall::FieldsRun(Window { first, count, .. }) => {
            let answer = reading::read_net_field_exports(book, bytes, first, count);
            ran(answer, "count", answers);
        }
        BookCall::GuidRun(Window { first, count, .. }) => {
            let answer = reading::read_export_guids(book, bytes, first, count);
            ran(answer, "count", answers);
        }
        BookCall::LoadObject {
            window,
            exporting,
            depth,
        } => {
            let Window { first, count, .. } = window;
            let answer = reading::load_object(book, bytes, first, count, exporting, depth);
            ran(answer, "guid", answers);
        }
        BookCall::ReadBlock(Window { first, count, .. }) => {
            tables(
                reading::read_checkpoint_tables(book, bytes, first, count),
                answers,
            );
        }
        BookCall::Lookup(lookup) => lookups::say(book, lookup, bytes, answers),
        // These have lines of their own.
        BookCall::Write(_) | BookCall::ReadWritten | BookCall::Dump { .. } => {}
    }
}

// A call on a book. A filled blob is laid out in the scratch buffer first.
pub fn play(
    book: &mut [u8],
    call: BookCall<'_>,
    scratch: &mut [u8],
    answers: &mut Answers<'_>,
) -> Result<(), Stop> {
    if let BookCall::Dump {
        groups,
        slots,
        guids,
    } = call
    {
        dump::play(book, groups, slots, guids, answers);
        return Ok(());
    }
    let bytes = call.blob().bytes(scratch)?;
    answers.begin();
    say(book, call, bytes, answers);
    answers.end();
    Ok(())
}

// Reads the last written block into the book.
pub fn play_written(book: &mut [u8], block: &[u8], answers: &mut Answers<'_>)
    requires { length block.now ≤ 268435456 }
{
    answers.begin();
    let bits = 8 * block.len() as u64;
    tables(
        reading::read_checkpoint_tables(book, block, 0, bits),
        answers,
    );
    answers.end();
}
