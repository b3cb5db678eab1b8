//! That calls succeed where there is memory, and how worked files are read.
use elf_image::{ElfFault, PartBytes, Program, is_elf, read};
use std::alloc::{AllocError, Global};
use std::test::Fail;

/// The file header of an executable with one program header behind it, and 256 as its entry.
static HEADER: [u8; 52] = [
    0x7f, b'E', b'L', b'F', 1, 1, 1, 0, 0, 0, 0, 0, 0, 0, 0, 0, 2, 0, 0xf3, 0, 1, 0, 0, 0, 0, 1, 0,
    0, 52, 0, 0, 0, 0, 0, 0, 0, 0, 0, 0, 0, 52, 0, 32, 0, 1, 0, 0, 0, 0, 0, 0, 0,
];

/// addi x1, x0, 7; addi x2, x0, 6; mul x3, x1, x2; ebreak.
static CODE: [u8; 16] = [
    0x93, 0, 0x70, 0, 0x13, 1, 0x60, 0, 0xb3, 0x81, 0x20, 2, 0x73, 0, 0x10, 0,
];

/// The type, the offset, the address, the file size and the memory size of a program header.
type Row = [u32; 5];

/// The code at its entry: the only segment of a file, whose bytes stand at 84.
const CODE_ROW: Row = [1, 84, 256, 16, 16];

/// Puts a program header last.
fn put_row(file: &mut Vec<u8>, row: &Row) -> Result<(), AllocError> {
    let [kind, offset, addr, file_size, memory_size] = *row;
    for word in [kind, offset, addr, addr, file_size, memory_size, 5, 4] {
        file.extend_from_slice(&word.to_le_bytes())?;
    }
    Ok(())
}

/// A file with a field of its file header changed, these program headers, and the code behind them.
fn file_of(alloc: Global, place: usize, field: u8, rows: &[Row]) -> Result<Vec<u8>, AllocError> {
    let mut file = Vec::from_slice(alloc, &HEADER)?;
    if let Some(count) = file.get_mut(44) {
        *count = u8::try_from(rows.len()).unwrap_or(u8::MAX);
    }
    if let Some(byte) = file.get_mut(place) {
        *byte = field;
    }
    for row in rows {
        put_row(&mut file, row)?;
    }
    file.extend_from_slice(&CODE)?;
    Ok(file)
}

/// What is read of a file, which begins as an ELF file does.
fn program_of(rt: &impl AllocGlobal, file: &[u8]) -> Result<Result<Program, ElfFault>, Fail> {
    if is_elf(file) {
        Ok(read(rt.alloc(), file))
    } else {
        Err(Fail::from("no ELF file"))
    }
}

/// The fault of a file, if it has one.
fn fault_of(rt: &impl AllocGlobal, file: &[u8]) -> Result<Option<ElfFault>, Fail> {
    Ok(program_of(rt, file)?.err())
}

#[test]
fn each_fault_comes_where_it_is_said(rt: HostRuntime) -> Result<(), Fail> {
    let one: &[Row] = &[CODE_ROW];
    let cases = [
        (0, 0x7f, one, None),
        (18, 3, one, Some(ElfFault::Header { place: 18 })),
        (5, 2, one, Some(ElfFault::Header { place: 5 })),
        (44, 65, one, Some(ElfFault::Header { place: 44 })),
        (44, 2, one, Some(ElfFault::Short)),
        (24, 2, one, Some(ElfFault::Entry)),
        (26, 1, one, Some(ElfFault::Entry)),
    ];
    for (place, field, rows, fault) in cases {
        let file = file_of(rt.alloc(), place, field, rows)?;
        assert_eq!(rt; fault_of(&rt, &file)?, fault);
    }
    assert_eq!(rt; fault_of(&rt, &HEADER[..51])?, Some(ElfFault::Short));
    assert!(rt; !is_elf(b"\x7fEL"));
    Ok(())
}

#[test]
fn segments_lie_in_the_file_and_in_memory(rt: HostRuntime) -> Result<(), Fail> {
    let misplaced = Some(ElfFault::Segment { index: 0 });
    // Two of the sums wrap at 32 bits.
    let cases = [
        ([1, 83, 256, 17, 16], misplaced),
        ([1, 85, 256, 16, 16], misplaced),
        ([1, 0xffff_fff0, 256, 16, 16], misplaced),
        ([1, 84, 65_520, 16, 16], None),
        ([1, 84, 65_521, 16, 16], misplaced),
        ([1, 84, 0xffff_fff0, 16, 16], misplaced),
        ([4, 85, 65_521, 17, 16], None),
    ];
    for (row, fault) in cases {
        let file = file_of(rt.alloc(), 0, 0x7f, &[row])?;
        assert_eq!(rt; fault_of(&rt, &file)?, fault);
    }
    for (addr, fault) in [(287, Some(ElfFault::Overlap { index: 1 })), (288, None)] {
        let rows = [[1, 116, 256, 16, 32], [1, 116, addr, 1, 1]];
        let file = file_of(rt.alloc(), 0, 0x7f, &rows)?;
        assert_eq!(rt; fault_of(&rt, &file)?, fault);
    }
    Ok(())
}

#[test]
fn a_segment_without_bytes_has_no_part(rt: HostRuntime) -> Result<(), Fail> {
    let rows = [[1, 0xffff_ffff, 512, 0, 64], [1, 116, 256, 16, 16]];
    let file = file_of(rt.alloc(), 0, 0x7f, &rows)?;
    let program = program_of(&rt, &file)?.ok().ok_or("no program")?;
    assert_eq!(rt; program.entry, 256);
    assert_eq!(rt; program.parts.as_slice().len(), 1);
    for part in program.parts.copy()?.as_slice() {
        assert_eq!(rt; part.addr, 256);
        assert_eq!(rt; part.bytes.as_slice(), CODE.as_slice());
    }
    let mut bytes = PartBytes::new(rt.alloc());
    bytes.push(1)?;
    assert_eq!(rt; bytes.copy()?.as_slice(), [1].as_slice());
    Ok(())
}
