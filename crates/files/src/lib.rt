// Files of the working folder, read into lent buffers; what the operating system brings is not proved, only that it fits, and of a reader
// whose bytes are known that they are what it gave.
#![tactic(auto)]

ghost use Rattle.std.specs.Prelude.{◌≤◌, length, take, IsTrue};
ghost use Rattle.std.specs.Io.KnownBytes.{Consumes};
ghost use Rattle.files.specs.Within.{Within};
ghost use Rattle.files.specs.Taken.{TakenOnce, TakenAll};

use std::fs::{File, OpenFile};
use std::io::{Read, Write};
use std::rt::Files;
use std::str::Utf8Error;
use std::{fs, io, str};

// That a file or a reader cannot be read.
#[derive(Clone, Copy)]
pub struct Unreadable;

// Whatever the operating system says.
impl From<io::Error> for Unreadable {
    fn from(_: io::Error) -> Unreadable {
        Unreadable
    }
}

// A name that is no text names no file that the library opens.
impl From<Utf8Error> for Unreadable {
    fn from(_: Utf8Error) -> Unreadable {
        Unreadable
    }
}

// One call of the reader's read.
fn one_read<R: Read>(reader: &mut R, part: &mut [u8]) -> Result<usize, Unreadable>
    ensures within { Within result (length part.old) }
    ensures taken { TakenOnce (R.remaining reader.old) (R.remaining reader.new) result part.new }
{
    Ok(reader.read(part)?)
}

// Reads until the buffer is full or the reader ends: how many bytes of the buffer are the reader's own.
pub fn fill_from<R: Read>(reader: &mut R, buf: &mut [u8]) -> Result<usize, Unreadable>
    ensures within { Within result (length buf.old) }
    ensures taken { TakenAll (R.remaining reader.old) (R.remaining reader.new) result buf.new }
{
    let mut at = 0;
    // a while: `at` goes on by as many bytes as one read brings
    while at < buf.len() {
        let n = one_read(reader, &mut buf[at..])?;
        if n == 0 {
            return Ok(at);
        }
        at += n;
    }
    Ok(at)
}

// The same of the file of this name.
fn load_named(rt: &impl Files, path: &str, buf: &mut [u8]) -> Result<usize, Unreadable>
    ensures { Within result (length buf.old) }
{
    let mut file = File::open(rt, path)?;
    fill_from(&mut file, buf)
}

// The front of the file of this name, as much as the buffer holds. A buffer one byte longer than the largest good file
// tells a longer one by its length. A directory can be opened and not read: it is unreadable. The library opens files by names
// that are text, so a name that is none is unreadable too.
pub fn load(rt: &impl Files, path: &[u8], buf: &mut [u8]) -> Result<usize, Unreadable>
    ensures { Within result (length buf.old) }
{
    load_named(rt, str::from_utf8(path)?, buf)
}

// Whether the reader's next bytes fill the part.
pub fn filled<R: Read>(reader: &mut R, part: &mut [u8]) -> bool
    ensures { IsTrue result → Consumes (R.remaining reader.old) (R.remaining reader.new) part.new }
{
    let Ok(n) = fill_from(reader, part) else {
        return false;
    };
    n == part.len()
}

// Whether the reader's next n bytes came into the buffer's front; not if there is no room for them.
pub fn filled_front<R: Read>(reader: &mut R, n: usize, buf: &mut [u8]) -> bool
    ensures room { IsTrue result → n ≤ length buf.old }
    ensures taken { IsTrue result → Consumes (R.remaining reader.old) (R.remaining reader.new) (take n buf.new) }
{
    if buf.len() < n {
        return false;
    }
    filled(reader, &mut buf[0..n])
}

// A new file of this name with these bytes, whole and handed to the disk. A file of that name is not written to.
fn make(rt: &impl Files, path: &str, bytes: &[u8]) -> io::Result<()> {
    let mut file = File::create_new(rt, path)?;
    file.write_all(bytes)?;
    file.sync_all()
}

// The same of files of these names.
fn replace_named(rt: &impl Files, path: &str, part: &str, bytes: &[u8]) -> bool {
    let _ = fs::remove_file(rt, part);
    if make(rt, part, bytes).is_ok() && fs::rename(rt, part, path).is_ok() {
        return true;
    }
    let _ = fs::remove_file(rt, part);
    false
}

// The file `path` replaced by one with these bytes, all at once: they go to the new file `part`, which then takes the name. Whether that was
// done: if not, `path` is as it was. No `part` is left where it can be removed, be it of a run that was broken off. The library makes files by
// names that are text, so nothing is done where one is none.
pub fn replace(rt: &impl Files, path: &[u8], part: &[u8], bytes: &[u8]) -> bool {
    match (str::from_utf8(path), str::from_utf8(part)) {
        (Ok(path), Ok(part)) => replace_named(rt, path, part, bytes),
        _ => false,
    }
}
