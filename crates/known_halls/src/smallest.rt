// The image of a hall without links: a trailer alone.
use super::report::image_check;
use super::stops::Hall;
use super::text;
use std::io;

// Writes the image of an empty hall into buffers of 8 and 7 bytes that hold the byte 7.
fn stored(rt: &impl Print, image: &mut [u8; 8]) -> io::Result<Hall> {
    let mut short = [7u8; 7];
    let empty = Hall::empty(3).empty_hall(rt, "empty hall ")?;
    empty.image_write(rt, ", image write into 8 bytes: ", image)?;
    println!(rt)?;
    text::bytes(rt, "trailer", image)?;
    empty.image_write(rt, "image write into 7 bytes: ", &mut short)?;
    println!(rt; ", bytes changed {}", text::changed(&short))?;
    Ok(empty)
}

// Checks bytes and reads them over the tables of a hall; the tables are then to be those wanted.
fn read(rt: &impl Print, name: &str, image: &[u8], hall: &Hall, wanted: &Hall) -> io::Result<Hall> {
    image_check(rt, name, image, 3)?;
    let left = hall.image_read(rt, ", image read ", image)?;
    left.is_read(rt, wanted)?;
    Ok(left)
}

// Reads parts of the image over a line of 3 stops, and then all of it.
fn loaded(rt: &impl Print, image: &[u8; 8], empty: &Hall) -> io::Result<()> {
    let line = Hall::empty(3).with_link(1, 2, 5).with_link(0, 1, 5);
    let hall = line.worked(rt)?;
    hall.middle(rt, 2, 2)?;
    let front = read(rt, "first 7 bytes: image check ", &image[..7], &hall, &hall)?;
    let back = read(rt, "last 7 bytes: image check ", &image[1..], &front, &hall)?;
    let left = read(rt, "8 bytes: image check ", image, &back, empty)?;
    left.middle(rt, 2, 2)
}

pub fn no_links(rt: &impl Print) -> io::Result<()> {
    let mut image = [7u8; 8];
    println!(rt; "an image without links, 3 stops")?;
    let empty = stored(rt, &mut image)?;
    loaded(rt, &image, &empty)
}
