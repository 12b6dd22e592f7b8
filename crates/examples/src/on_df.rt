// DF text: texts read, lists written, and each refusal.
use df::{df_read, df_write};
use printing::inner::print::{Items, Written, told};
use std::io;

// A text read to a buffer, with what is said of its room: the answer, and the list.
fn read_from(
    rt: &impl Print,
    depth: u32,
    text: &str,
    room: &str,
    codes: &mut [u32],
) -> io::Result<()> {
    let answer = df_read(depth, text.as_bytes(), codes);
    println!(rt; "df_read {depth} {text}{room}: {}", Written(answer, codes))
}

// The same to eight places.
fn read(rt: &impl Print, depth: u32, text: &str) -> io::Result<()> {
    read_from(rt, depth, text, "", &mut [0; 8])
}

// A list written to 25 bytes: the answer, and the text.
fn written(rt: &impl Print, depth: u32, list: &[u32]) -> io::Result<()> {
    let mut bytes = [0u8; 25];
    let answer = df_write(depth, list, &mut bytes);
    print!(rt; "df_write {depth} {}: {}", Items(list), told(answer))?;
    if let Some(text) = answer.ok().and_then(|n| bytes.get(..n)) {
        print!(rt; " ")?;
        rt.write_all(text)?;
    }
    rt.println("")
}

pub fn run(rt: &impl Print) -> io::Result<()> {
    // the empty list, the root, [r0] at depth 1, and r057 at depth 3
    written(rt, 3, &[])?;
    written(rt, 3, &[1])?;
    written(rt, 1, &[8])?;
    written(rt, 3, &[559])?;
    // refused: the depth, each fault of a list, and 41 bytes that do not fit 25
    written(rt, 11, &[])?;
    written(rt, 3, &[7])?;
    written(rt, 3, &[559, 559])?;
    written(rt, 1, &[8, 9, 10, 11, 12, 13, 14, 15])?;
    written(rt, 3, &[559, 1023])?;
    // the same texts read
    read(rt, 3, "W")?;
    read(rt, 3, "B")?;
    read(rt, 1, "(BWWWWWWW")?;
    read(rt, 3, "((WWWWW(WWWWWWWBWWWWWWWWW")?;
    // refused: the depth; a byte that is none of the three; a gray voxel; eight equal leaves; a byte after the root; a text that stops early; no room
    read(rt, 11, "W")?;
    read(rt, 1, "(BW W")?;
    read(rt, 0, "(")?;
    read(rt, 1, "(W(")?;
    read(rt, 1, "(BBBBBBBB")?;
    read(rt, 2, "(W(WWWWWWWW")?;
    read(rt, 1, "WB")?;
    read(rt, 1, "(BWWWWWWWW")?;
    read(rt, 1, "(BWW")?;
    read(rt, 1, "")?;
    read_from(rt, 1, "(BWWWWWWW", " room 0", &mut [])
}
