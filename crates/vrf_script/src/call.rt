// The calls of a script, with their arguments.
use crate::script::{Blob, Script, Stop};
use vrf_model::Allowances;

// The bytes of a window, its first bit and its bit count.
#[derive(Clone, Copy)]
pub struct Window<'a> {
    pub bytes: Blob<'a>,
    pub first: u64,
    pub count: u64,
}

#[derive(Clone, Copy)]
pub enum Lookup<'a> {
    GroupByIndex(u32),
    GroupByPath(Blob<'a>),
    PathByGuid(u32),
    OuterGuid(u32),
    OuterPath(u32),
    GameplayTagName(u32),
    Field { place: u32, slot: u32 },
    Group(u32),
    FieldName { place: u32, slot: u32 },
    GuidPath(u32),
    UniqueLeafMatch(Blob<'a>),
    ResolveCncForInstanceName(Blob<'a>),
    FindClassNetCacheKey(Blob<'a>),
    Counters,
}

// A call on the current book.
#[derive(Clone, Copy)]
pub enum BookCall<'a> {
    Clear,
    AddExportGroup {
        path: Blob<'a>,
        index: u32,
        slots: u32,
    },
    SetFieldOnGroup {
        index: u32,
        handle: u32,
        checksum: u32,
        name: Blob<'a>,
    },
    SetNetGuidPath {
        guid: u32,
        path: Blob<'a>,
        outer: u32,
    },
    FieldsRun(Window<'a>),
    GuidRun(Window<'a>),
    LoadObject {
        window: Window<'a>,
        exporting: bool,
        depth: u32,
    },
    ReadBlock(Window<'a>),
    // Writes the book into a buffer of this many bytes.
    Write(u64),
    // Reads the last written block.
    ReadWritten,
    Lookup(Lookup<'a>),
    Dump {
        groups: u32,
        slots: u32,
        guids: u32,
    },
}

#[derive(Clone, Copy)]
pub enum Call<'a> {
    Open { book: u8, allowances: Allowances },
    Use(u8),
    OnBook(BookCall<'a>),
    // The rest of the call's arguments follows in the script.
    Bits(Blob<'a>),
    Tally(Blob<'a>),
}

fn take_allowances(script: &mut Script<'_>) -> Result<Allowances, Stop> {
    Ok(Allowances {
        guids: script.take_u64()?,
        groups: script.take_u64()?,
        fields: script.take_u64()?,
        text: script.take_u64()?,
        literals: script.take_u64()?,
    })
}

impl<'a> Window<'a> {
    pub fn take(script: &mut Script<'a>) -> Result<Window<'a>, Stop> {
        Ok(Window {
            bytes: script.take_blob()?,
            first: script.take_u64()?,
            count: script.take_u64()?,
        })
    }
}

impl<'a> Lookup<'a> {
    fn blob(self) -> Blob<'a> {
        match self {
            Lookup::GroupByPath(path) => path,
            Lookup::UniqueLeafMatch(name) => name,
            Lookup::ResolveCncForInstanceName(name) => name,
            Lookup::FindClassNetCacheKey(path) => path,
            _ => Blob::Given(b""),
        }
    }

    fn take(code: u8, script: &mut Script<'a>) -> Result<Lookup<'a>, Stop> {
        Ok(match code {
            0x20 => Lookup::GroupByIndex(script.take_u32()?),
            0x21 => Lookup::GroupByPath(script.take_blob()?),
            0x22 => Lookup::PathByGuid(script.take_u32()?),
            0x23 => Lookup::OuterGuid(script.take_u32()?),
            0x24 => Lookup::OuterPath(script.take_u32()?),
            0x25 => Lookup::GameplayTagName(script.take_u32()?),
            0x26 => Lookup::Field {
                place: script.take_u32()?,
                slot: script.take_u32()?,
            },
            0x27 => Lookup::Group(script.take_u32()?),
            0x28 => Lookup::FieldName {
                place: script.take_u32()?,
                slot: script.take_u32()?,
            },
            0x29 => Lookup::GuidPath(script.take_u32()?),
            0x2A => Lookup::UniqueLeafMatch(script.take_blob()?),
            0x2B => Lookup::ResolveCncForInstanceName(script.take_blob()?),
            0x2C => Lookup::FindClassNetCacheKey(script.take_blob()?),
            0x2D => Lookup::Counters,
            _ => return Err(Stop::NoSuchCall),
        })
    }
}

impl<'a> BookCall<'a> {
    // The call's text or the bytes of its window; none for a call without a blob. (An empty blob and no Option: every call is played with bytes, and
    // one without a blob does not look at them.)
    pub fn blob(self) -> Blob<'a> {
        match self {
            BookCall::AddExportGroup { path, .. } => path,
            BookCall::SetFieldOnGroup { name, .. } => name,
            BookCall::SetNetGuidPath { path, .. } => path,
            BookCall::FieldsRun(window) => window.bytes,
            BookCall::GuidRun(window) => window.bytes,
            BookCall::LoadObject { window, .. } => window.bytes,
            BookCall::ReadBlock(window) => window.bytes,
            BookCall::Lookup(lookup) => lookup.blob(),
            _ => Blob::Given(b""),
        }
    }

    fn take(code: u8, script: &mut Script<'a>) -> Result<BookCall<'a>, Stop> {
        Ok(match code {
            0x03 => BookCall::Clear,
            0x04 => BookCall::AddExportGroup {
                path: script.take_blob()?,
                index: script.take_u32()?,
                slots: script.take_u32()?,
            },
            0x05 => BookCall::SetFieldOnGroup {
                index: script.take_u32()?,
                handle: script.take_u32()?,
                checksum: script.take_u32()?,
                name: script.take_blob()?,
            },
            0x06 => BookCall::SetNetGuidPath {
                guid: script.take_u32()?,
                path: script.take_blob()?,
                outer: script.take_u32()?,
            },
            0x10 => BookCall::FieldsRun(Window::take(script)?),
            0x11 => BookCall::GuidRun(Window::take(script)?),
            0x12 => BookCall::LoadObject {
                window: Window::take(script)?,
                exporting: script.take_u8()? != 0,
                depth: script.take_u32()?,
            },
            0x13 => BookCall::ReadBlock(Window::take(script)?),
            0x14 => BookCall::Write(script.take_u64()?),
            0x15 => BookCall::ReadWritten,
            0x2E => BookCall::Dump {
                groups: script.take_u32()?,
                slots: script.take_u32()?,
                guids: script.take_u32()?,
            },
            _ => BookCall::Lookup(Lookup::take(code, script)?),
        })
    }
}

impl<'a> Call<'a> {
    // The call of this byte, with the arguments that follow in the script.
    pub fn take(code: u8, script: &mut Script<'a>) -> Result<Call<'a>, Stop> {
        Ok(match code {
            0x01 => Call::Open {
                book: script.take_u8()?,
                allowances: take_allowances(script)?,
            },
            0x02 => Call::Use(script.take_u8()?),
            0x30 => Call::Bits(script.take_blob()?),
            0x31 => Call::Tally(script.take_blob()?),
            _ => Call::OnBook(BookCall::take(code, script)?),
        })
    }
}
