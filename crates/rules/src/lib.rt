// The types that the layers share. The rules themselves are the definitions in specs/, a file for each topic of document 01.
#![tactic(auto)]

ghost use Rattle.std.specs.Prelude.{◌≡◌};
ghost use Rattle.rules.specs.Answers.{number_of, list_number_of};
ghost use Rattle.rules.specs.Examine.{mode_of, switch_of};

use std::fmt;

// Global descriptors: the reading of one at a cursor. A method stands in the crate of its struct.
pub mod encoding;

// The limits of document 01, each by name; file, memory, relocations and globals as document 02's request 5 has them.

// The shortest and the longest file.
pub const FILE_LEAST: u64 = 64;

pub const FILE_LIMIT: u64 = 16777216;

// The end of memory.
pub const MEMORY_LIMIT: u64 = 16777216;

// Program headers.
pub const HEADER_LIMIT: u32 = 16;

// Bytes of PT_DYNAMIC.
pub const DYNAMIC_LIMIT: u64 = 4096;

// Relocation entries, and with them packed places.
pub const ENTRY_LIMIT: usize = 65536;

// Descriptors.
pub const GLOBAL_LIMIT: u32 = 65536;

// Addresses are below this.
pub const ADDRESS_LIMIT: u64 = 281474976710656;

// Bytes of a granule.
pub const GRANULE: u64 = 16;

// The bias is a multiple of this.
pub const PAGE: u64 = 4096;

// A byte of a ULEB128 number counts this many times as much as the one before it, and one that is at least this has another after it.
pub const RADIX: u64 = 128;

// A descriptor's first number has a size below this, and its distance counts in units of this.
pub const SIZES: u64 = 8;

// Memory tags: a tag has four bits.
pub const TAGS: u8 = 16;

// The tag of a granule that no global has, and never a choice.
pub const UNTAGGED: u8 = 0;

// The dynamic tags that are known.
pub const DT_SYMTAB: u64 = 6;

pub const DT_SYMENT: u64 = 11;

pub const DT_RELA: u64 = 7;

pub const DT_RELASZ: u64 = 8;

pub const DT_RELAENT: u64 = 9;

pub const DT_REL: u64 = 17;

pub const DT_JMPREL: u64 = 23;

pub const DT_RELR: u64 = 36;

pub const DT_RELRSZ: u64 = 35;

pub const DT_RELRENT: u64 = 37;

pub const DT_MEMTAG_MODE: u64 = 0x70000009;

pub const DT_MEMTAG_HEAP: u64 = 0x7000000b;

pub const DT_MEMTAG_STACK: u64 = 0x7000000c;

pub const DT_MEMTAG_GLOBALS: u64 = 0x7000000d;

pub const DT_MEMTAG_GLOBALSSZ: u64 = 0x7000000f;

// Why a file or a load is refused: document 01's checks, each by its number.
#[derive(Clone, Copy, PartialEq, Eq)]
pub enum Reason {
    Length = 1,
    Identification = 2,
    Header = 3,
    Load = 4,
    Dynamic = 5,
    Entry = 6,
    Table = 7,
    Descriptor = 8,
    Global = 9,
    Target = 10,
    Place = 11,
    Lending = 12,
    Address = 13,
    Choice = 14,
    Packed = 15,
    LongForm = 16,
}

// Why a list of globals is refused, by the writer, the picker or both.
#[derive(Clone, Copy, PartialEq, Eq)]
pub enum ListReason {
    UnequalLists = 1,
    NoSize = 2,
    NoMultiple = 3,
    EarlyStart = 4,
    HighEnd = 5,
    SmallBuffer = 6,
    UnequalPicks = 7,
    FewTags = 8,
}

// A refusal: document 01's number and position.
#[derive(Clone, Copy, PartialEq, Eq)]
pub struct Refusal {
    pub reason: Reason,
    pub position: u64,
}

// The same of a list of globals: the position is a global's index.
#[derive(Clone, Copy, PartialEq, Eq)]
pub struct ListRefusal {
    pub reason: ListReason,
    pub position: u64,
}

impl Reason {
    // The refusal at a position.
    pub fn at(self, position: u64) -> Refusal
        ensures { result ≡ record { reason = self; position = position } }
    {
        Refusal {
            reason: self,
            position,
        }
    }
}

impl ListReason {
    // The refusal at a global's index.
    pub fn at(self, position: u64) -> ListRefusal
        ensures { result ≡ record { reason = self; position = position } }
    {
        ListRefusal {
            reason: self,
            position,
        }
    }
}

impl From<Reason> for u8 {
    ghost from_gives = { λ r n. n ≡ number_of r };

    fn from(r: Reason) -> u8 {
        r as u8
    }
}

impl From<ListReason> for u8 {
    ghost from_gives = { λ r n. n ≡ list_number_of r };

    fn from(r: ListReason) -> u8 {
        r as u8
    }
}

impl fmt::Display for Refusal {
    fn fmt<W: fmt::Write>(&self, f: &mut fmt::Formatter<W>) -> fmt::Result {
        write!(f, "refused {} {}", u8::from(self.reason), self.position)
    }
}

impl fmt::Display for ListRefusal {
    fn fmt<W: fmt::Write>(&self, f: &mut fmt::Formatter<W>) -> fmt::Result {
        write!(f, "refused {} {}", u8::from(self.reason), self.position)
    }
}

// Where the program header table stands in the file, and how many headers it has.
#[derive(Clone, Copy)]
pub struct Headers {
    pub table: u32,
    pub count: u32,
}

// One program header.
#[derive(Clone, Copy)]
pub struct Segment {
    pub kind: u32,
    pub flags: u32,
    pub offset: u64,
    pub vaddr: u64,
    pub filesz: u64,
    pub memsz: u64,
    pub align: u64,
}

// Where the dynamic table stands in the file, and how many entries come before the first DT_NULL.
#[derive(Clone, Copy)]
pub struct Dynamic {
    pub at: u32,
    pub entries: u32,
}

// Which values of a dynamic entry are allowed.
#[derive(Clone, Copy)]
pub enum Allowed {
    Any,
    Exactly(u64),
    Multiple(u64),
    Flag,
    Never,
}

// A row of the table of known dynamic tags. Rows of one group are partners; a group goes by its first tag.
#[derive(Clone, Copy)]
pub struct Known {
    pub tag: u64,
    pub group: u64,
    pub allowed: Allowed,
}

// Where the relocation table stands in the file, and how many entries it has.
#[derive(Clone, Copy)]
pub struct Relocations {
    pub at: u32,
    pub entries: u32,
}

// Where the packed table stands in the file, how many words it has, and how many places they stand for.
#[derive(Clone, Copy)]
pub struct Packed {
    pub at: u32,
    pub words: u32,
    pub places: u32,
}

// Where the descriptor table stands in the file, and how many bytes it has.
#[derive(Clone, Copy)]
pub struct Descriptors {
    pub at: u32,
    pub bytes: u32,
}

// A described global: its first address and its granules of 16 bytes.
#[derive(Clone, Copy)]
pub struct Global {
    pub start: u64,
    pub granules: u64,
}

// Where reading descriptors stands: a position in the table, and the last global's end.
#[derive(Clone, Copy)]
pub struct Cursor {
    pub position: u64,
    pub end: u64,
}

// What the ELF reader finds in a file that passes checks 1 to 7, 15, 8, 16 and 9. The symbol table is known by its address.
#[derive(Clone, Copy)]
pub struct Module {
    pub headers: Headers,
    pub dynamic: Dynamic,
    pub symbols: Option<u64>,
    pub relocations: Relocations,
    pub packed: Packed,
    pub descriptors: Descriptors,
    pub globals: u32,
}

// A symbol's fields that a relocation uses.
#[derive(Clone, Copy)]
pub struct Symbol {
    pub info: u8,
    pub section: u16,
    pub value: u64,
}

// What a relocation refers to.
#[derive(Clone, Copy)]
pub enum Target {
    // RELATIVE: the bias.
    Base,
    // ABS64 and GLOB_DAT: the bias and the symbol's value. A packed place: the bias and its loaded bytes.
    Defined(u64),
    // A weak undefined symbol.
    Undefined,
    // A kind or symbol that is not allowed.
    Barred,
}

// MEMTAG_MODE: 0 synchronous, 1 asynchronous.
#[derive(Clone, Copy)]
pub enum Mode {
    Absent = 0,
    Synchronous = 1,
    Asynchronous = 2,
}

impl From<Option<u64>> for Mode {
    ghost from_gives = { λ value mode. mode ≡ mode_of value };

    fn from(value: Option<u64>) -> Mode {
        match value {
            None => Mode::Absent,
            Some(0) => Mode::Synchronous,
            Some(_) => Mode::Asynchronous,
        }
    }
}

// MEMTAG_HEAP and MEMTAG_STACK: 0 off, 1 on.
#[derive(Clone, Copy)]
pub enum Switch {
    Absent = 0,
    Off = 1,
    On = 2,
}

impl From<Option<u64>> for Switch {
    ghost from_gives = { λ value switch. switch ≡ switch_of value };

    fn from(value: Option<u64>) -> Switch {
        match value {
            None => Switch::Absent,
            Some(0) => Switch::Off,
            Some(_) => Switch::On,
        }
    }
}

// The facts of a module.
#[derive(Clone, Copy)]
pub struct Facts {
    pub mode: Mode,
    pub heap: Switch,
    pub stack: Switch,
    pub globals: u32,
    pub words: u32,
}

// What the walk of what is relocated finds besides: how many words there are, and the position of the first address out of range.
#[derive(Clone, Copy)]
pub struct Walked {
    pub words: u32,
    pub outside: Option<u64>,
}
