//! The images that a crash may leave of a disk in memory.

use rs_disk::MemoryDisk;

/// Returns whether the image of a choice is these bytes.
pub fn image_is(disk: &MemoryDisk, choice: &[u8], wanted: &[u8]) -> bool {
    match disk.image(choice) {
        Ok(image) => image.as_slice() == wanted,
        Err(_) => false,
    }
}
