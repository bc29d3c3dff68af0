// The system's files. Of reading and writing themselves nothing is proved. A name is UTF-8 text to the system's library: one that is not will not open.
ghost use Rattle.std.specs.Prelude.{◌≤◌, length, IfSome};

use std::fs::File;
use std::io::{Read, Seek, SeekFrom, Write};
use std::str::from_utf8;

// A file to read.
pub fn open_file(rt: &HostRuntime, name: &[u8]) -> Option<File> {
    File::open(rt, from_utf8(name).ok()?).ok()
}

// A file to write, made or emptied.
pub(crate) fn make_file(rt: &HostRuntime, name: &[u8]) -> Option<File> {
    File::create(rt, from_utf8(name).ok()?).ok()
}

// Reads some bytes, and says how many; none at the file's end. Nothing where the read failed.
pub fn read_part(from: &File, part: &mut [u8]) -> Option<usize>
    ensures { IfSome result (λ n. n ≤ length part.new) }
{
    let mut file = from;
    file.read(part).ok()
}

// Writes all bytes, and says whether all went well.
pub(crate) fn write_part(to: &File, part: &[u8]) -> bool {
    let mut file = to;
    file.write_all(part).is_ok()
}

// Goes back to the file's first byte, and says whether all went well.
pub(crate) fn back_to_start(from: &File) -> bool {
    let mut file = from;
    file.seek(SeekFrom::Start(0)).is_ok()
}
