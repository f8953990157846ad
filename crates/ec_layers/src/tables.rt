//! Tables of rows that are written as one text, which costs a proof nothing, however many rows it has.
use ec_lists::NoMemory;
use std::alloc::Global;

/// What stands before and behind the arrow `=>` of a row. An empty line and a heading, which begins with `#`, are no rows.
/// A row without an arrow has nothing behind it.
pub fn row_of(line: &str) -> Option<(&str, &str)> {
    if line.is_empty() || line.starts_with('#') {
        return None;
    }
    match line.split_once(" =>") {
        Some((before, behind)) => Some((before, behind.trim())),
        None => Some((line, "")),
    }
}

/// Adds a text, in which `|` stands for a line end.
fn add(bytes: &mut Vec<u8>, text: &str) -> Result<(), NoMemory> {
    for byte in text.bytes() {
        bytes.push(if byte == b'|' { b'\n' } else { byte })?;
    }
    Ok(())
}

/// How often a text of a table stands in the bytes, and the text: `12 text` is the text twelve times.
fn repeated(piece: &str) -> (u32, &str) {
    let Some((count, text)) = piece.split_once(' ') else {
        return (1, piece);
    };
    match count.parse::<u32>() {
        Ok(count) => (count, text),
        Err(_) => (1, piece),
    }
}

/// Adds a piece of a text, as often as it says if it stood in braces.
fn add_piece(bytes: &mut Vec<u8>, in_braces: bool, piece: &str) -> Result<(), NoMemory> {
    if !in_braces {
        return add(bytes, piece);
    }
    let (count, text) = repeated(piece);
    for _ in 0..count {
        add(bytes, text)?;
    }
    Ok(())
}

/// The bytes that a text of a table stands for: `|` is a line end, and `{12 text}` is the text twelve times.
pub fn bytes_of(alloc: Global, text: &str) -> Result<Vec<u8>, NoMemory> {
    let mut bytes = Vec::new(alloc);
    for (place, piece) in text.split(['{', '}']).enumerate() {
        add_piece(&mut bytes, place % 2 == 1, piece)?;
    }
    Ok(bytes)
}
