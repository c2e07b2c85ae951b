// Images for the bench sheet: one writable PT_LOAD from address 0 on, the sheet's three globals, RELATIVE or packed relocations.
#![tactic(auto)]

ghost use Rattle.std.specs.Prelude.{◌≡◌, ◌+◌, ◌*◌};
ghost use Rattle.rules.specs.Memory.{put_word};

use rules::{
    DT_MEMTAG_GLOBALS, DT_MEMTAG_GLOBALSSZ, DT_RELA, DT_RELAENT, DT_RELASZ, DT_RELR, DT_RELRENT,
    DT_RELRSZ,
};

// Where the parts of an image stand, in the file and in memory.
const HEADERS: usize = 64;

const ENTRIES: usize = 256;

const DESCRIPTORS: usize = 384;

const RELA: usize = 512;

// The place of the sheet's relocation, in its file part.
pub const SHEET_PLACE: usize = 448;

// The file parts of the sheet's image and of one with room for a relocation more than a module may have.
const SHEET_FILE: u64 = 1024;

pub const LONG_FILE: u32 = 1576960;

// The descriptors of many globals, in the file part of the long image.
const MANY: usize = 1024;

// A program header's kind, and its flags in the high half: PT_LOAD, readable and writable, and PT_DYNAMIC.
const WRITABLE_LOAD: u64 = 0x600000001;

const PT_DYNAMIC: u64 = 2;

// A bitmap of 63 places.
const ALL_BITS: u64 = 0xffffffffffffffff;

// R_AARCH64_RELATIVE.
const RELATIVE: u64 = 1027;

// A dynamic entry by its index: a tag and a value.
fn put_dynamic(f: &mut [u8], i: u8, tag: u64, value: u64)
    ensures { f.new ≡ put_word (put_word f.old (256 + 16 * i) tag) (256 + 16 * i + 8) value }
{
    let at = ENTRIES + 16 * (i as usize);
    memory::put64(f, at, tag);
    memory::put64(f, at + 8, value);
}

// A RELATIVE relocation by its index: a place and an addend.
fn put_relative(f: &mut [u8], i: u32, place: u64, addend: u64)
    ensures { f.new ≡ put_word (put_word (put_word f.old (512 + 24 * i) place) (512 + 24 * i + 8) 1027) (512 + 24 * i + 16) addend }
{
    let at = RELA + 24 * (i as usize);
    memory::put64(f, at, place);
    memory::put64(f, at + 8, RELATIVE);
    memory::put64(f, at + 16, addend);
}

// A program header by its index: its kind and flags, where it starts, its bytes in the file and in memory.
fn put_header(f: &mut [u8], i: u8, kind: u64, start: u64, filesz: u64, memsz: u64) {
    let at = HEADERS + 56 * (i as usize);
    memory::put64(f, at, kind);
    memory::put64(f, at + 8, start);
    memory::put64(f, at + 16, start);
    memory::put64(f, at + 32, filesz);
    memory::put64(f, at + 40, memsz);
}

// The file header.
fn put_file_header(f: &mut [u8]) {
    memory::put_bytes(f, 0, b"\x7fELF\x02\x01\x01");
    // Type 3, machine 183, version 1.
    memory::put_bytes(f, 16, b"\x03\x00\xb7\x00\x01\x00\x00\x00");
    memory::put64(f, 32, HEADERS as u64);
    // Header size 56, count 2.
    memory::put_bytes(f, 54, b"\x38\x00\x02\x00");
}

// An image of the sheet's three globals, all but the relocations and their entries in the dynamic table.
fn put_image(f: &mut [u8], filesz: u64, memsz: u64) {
    put_file_header(f);
    put_header(f, 0, WRITABLE_LOAD, 0, filesz, memsz);
    put_header(f, 1, PT_DYNAMIC, ENTRIES as u64, 96, 96);
    put_dynamic(f, 3, DT_MEMTAG_GLOBALS, DESCRIPTORS as u64);
    put_dynamic(f, 4, DT_MEMTAG_GLOBALSSZ, 5);
    memory::put_bytes(f, DESCRIPTORS, b"\x82\x10\x10\x07\x01");
}

// The entries of so many relocations.
fn put_table(f: &mut [u8], entries: u32) {
    put_dynamic(f, 0, DT_RELA, RELA as u64);
    put_dynamic(f, 1, DT_RELASZ, 24 * (entries as u64));
    put_dynamic(f, 2, DT_RELAENT, 24);
}

// The entries of a packed table of so many bytes.
fn put_packed_table(f: &mut [u8], bytes: u64) {
    put_dynamic(f, 0, DT_RELR, RELA as u64);
    put_dynamic(f, 1, DT_RELRSZ, bytes);
    put_dynamic(f, 2, DT_RELRENT, 8);
}

// The align of the image's PT_LOAD.
pub fn put_align(f: &mut [u8], align: u64)
    ensures { f.new ≡ put_word f.old 112 align }
{
    memory::put64(f, HEADERS + 48, align);
}

// So many relocations of one addend, at places that follow one another from a first.
fn put_relocations(f: &mut [u8], entries: u32, place: u32, addend: u64) {
    for i in 0..entries {
        put_relative(f, i, place as u64 + 8 * (i as u64), addend);
    }
}

// The sheet's image with one relocation, of an addend and the place's bytes, over zeros.
pub fn put_sheet(f: &mut [u8], memsz: u64, addend: u64, loaded: u64) {
    put_image(f, SHEET_FILE, memsz);
    put_table(f, 1);
    put_relative(f, 0, SHEET_PLACE as u64, addend);
    memory::put64(f, SHEET_PLACE, loaded);
}

// An image with so many relocations, over zeros; their places come after the file part.
pub fn put_long(f: &mut [u8], memsz: u64, entries: u32, addend: u64) {
    put_image(f, LONG_FILE as u64, memsz);
    put_table(f, entries);
    put_relocations(f, entries, LONG_FILE, addend);
}

// The same with the last at the place of the first.
pub fn put_repeated(f: &mut [u8], memsz: u64, entries: u32, addend: u64) {
    put_long(f, memsz, entries, addend);
    if 0 < entries {
        put_relative(f, entries - 1, LONG_FILE as u64, addend);
    }
}

// An image with so many globals of a granule each, one after the other from address 0 on, and a relocation.
pub fn put_globals(f: &mut [u8], memsz: u64, globals: u32, place: u64, addend: u64) {
    put_image(f, LONG_FILE as u64, memsz);
    put_table(f, 1);
    put_relative(f, 0, place, addend);
    put_dynamic(f, 3, DT_MEMTAG_GLOBALS, MANY as u64);
    put_dynamic(f, 4, DT_MEMTAG_GLOBALSSZ, globals as u64);
    memory::fill_at(f, MANY, globals as usize, 1);
}

// The sheet's image with a packed table of one word, and the bytes of the sheet's place.
pub fn put_packed(f: &mut [u8], memsz: u64, word: u64, loaded: u64) {
    put_image(f, SHEET_FILE, memsz);
    put_packed_table(f, 8);
    memory::put64(f, RELA, word);
    memory::put64(f, SHEET_PLACE, loaded);
}

// So many packed words, each a bitmap of 63 places.
fn put_bitmaps(f: &mut [u8], words: u32) {
    for i in 0..words {
        memory::put64(f, RELA + 8 * (i as usize), ALL_BITS);
    }
}

// An image with packed places after the file part: one by a word, 63 by each of so many bitmaps less one, and those of a last bitmap.
pub fn put_packed_long(f: &mut [u8], memsz: u64, bitmaps: u32, last: u64) {
    put_image(f, LONG_FILE as u64, memsz);
    put_packed_table(f, 8 * (bitmaps as u64) + 8);
    put_bitmaps(f, bitmaps);
    memory::put64(f, RELA, LONG_FILE as u64);
    memory::put64(f, RELA + 8 * (bitmaps as usize), last);
}
