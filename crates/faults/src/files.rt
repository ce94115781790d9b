// Long files, every number of which takes three groups, and every text two hundred bytes.
use std::alloc::{AllocError, Global};

// Writes a number in three groups.
fn write_number(file: &mut Vec<u8>, number: u32) -> Result<(), AllocError> {
    file.push((number % 128) as u8 + 128)?;
    file.push((number / 128 % 128) as u8 + 128)?;
    file.push((number / 16384 % 128) as u8)?;
    Ok(())
}

// Writes a text of two hundred bytes.
fn write_text(file: &mut Vec<u8>) -> Result<(), AllocError> {
    write_number(file, 200)?;
    for _ in 0..200 {
        file.push(b'x')?;
    }
    Ok(())
}

// Writes a test of a profile.
fn write_test(file: &mut Vec<u8>, profile: u32) -> Result<(), AllocError> {
    for number in [1, profile, 5, 0, 4032, 1, 1] {
        write_number(file, number)?;
    }
    write_text(file)
}

// Writes a note.
fn write_note(file: &mut Vec<u8>) -> Result<(), AllocError> {
    write_number(file, 0)?;
    write_text(file)
}

// A file of capacity 1 with so many tests, no two with the same profile, and then so many notes.
pub(crate) fn filled(heap: Global, tests: u32, notes: u32) -> Result<Vec<u8>, AllocError> {
    let mut file = Vec::new(heap);
    write_number(&mut file, 1)?;
    write_number(&mut file, tests.wrapping_add(notes))?;
    for profile in 0..tests {
        write_test(&mut file, profile)?;
    }
    for _ in 0..notes {
        write_note(&mut file)?;
    }
    Ok(file)
}
