// A file that is named by an argument.
ghost use Rattle.std.specs.Prelude.{◌≡◌, ◌≤◌, length, IfOk};
ghost use Rattle.arguments.specs.Files.{file_of};

use crate::{FileError, PATH_MAX};
use std::io::Read;
use std::rt::Files;
use std::{fs, io, str};
use streams::read_from;

// The system's numbers for a file that is not there, a name that is too long, and one that is no text. They are numbers, as the
// system's text of each is what is written.
const NO_FILE: i32 = 2;

const TOO_LONG: i32 = 36;

const NO_TEXT: i32 = 84;

// What was read of a file that is open.
fn file_of(read: io::Result<usize>) -> Result<usize, FileError>
    ensures { result ≡ file_of read }
{
    read.map_err(FileError::Unread)
}

// The place in a name at which the part begins that the byte at this place is in.
fn part_start(name: &[u8], at: usize) -> usize
    requires { at ≤ length name.now }
    ensures { result ≤ at }
{
    match name[..at].iter().rposition(|&byte| byte == b'/') {
        Some(slash) => slash + 1,
        None => 0,
    }
}

// The place after that part.
fn part_end(name: &[u8], at: usize) -> usize
    requires { at ≤ length name.now }
    ensures least { at ≤ result }
    ensures most { result ≤ length name.now }
{
    match name[at..].iter().position(|&byte| byte == b'/') {
        Some(more) => at + more,
        None => name.len(),
    }
}

// The path of the folder that the first bytes of a name lead to.
fn folder(front: &[u8]) -> &str {
    if front.is_empty() {
        return ".";
    }
    str::from_utf8(front).unwrap_or(".")
}

// Whether a file's name is among those of a folder, each of which ends in a 0.
fn is_among(names: &[u8], name: &[u8]) -> bool {
    names
        .split_inclusive(|&byte| byte == 0)
        .any(|part| part.strip_suffix(b"\0") == Some(name))
}

// Whether a folder has a file of this name.
fn is_listed<D: Read>(names: &mut D, name: &[u8]) -> bool {
    let mut list = [0u8; PATH_MAX];
    for _ in 0..u64::MAX {
        match names.read(&mut list) {
            Ok(0) | Err(_) => return false,
            Ok(got) => {
                if is_among(&list[..got], name) {
                    return true;
                }
            }
        }
    }
    false
}

// Why the file of a name cannot be opened of which only so many first bytes are UTF-8 text: `std` has no path for it. So it is
// looked for in the folder that the text leads to, and reported as any other if it is not there.
fn no_text<R: Files>(rt: &R, name: &[u8], text: usize) -> io::Error
    requires { text ≤ length name.now }
{
    let start = part_start(name, text);
    let end = part_end(name, text);
    match rt.open_dir(folder(&name[..start])) {
        Ok(mut names) => {
            if is_listed(&mut names, &name[start..end]) {
                return io::Error::from_raw_os_error(NO_TEXT);
            }
            io::Error::from_raw_os_error(NO_FILE)
        }
        Err(why) => why,
    }
}

// Opens the file of this name to read it.
fn open<R: Files>(rt: &R, name: &[u8]) -> io::Result<R::File> {
    if PATH_MAX <= name.len() {
        return Err(io::Error::from_raw_os_error(TOO_LONG));
    }
    match str::from_utf8(name) {
        Ok(path) => fs::open(rt, path),
        Err(why) => Err(no_text(rt, name, why.valid_up_to())),
    }
}

// Reads the file of this name until the list is full or the file ends; the bytes are at the list's beginning. Returns how many
// there are, or why they could not be had.
//
// Open is which file the name leads to and what it holds. So many bytes as it says are in the list.
pub fn read_file<R: Files>(rt: &R, name: &[u8], list: &mut [u8]) -> Result<usize, FileError>
    ensures { IfOk result (λ got. got ≤ length list.new) }
{
    let mut file = open(rt, name).map_err(FileError::Unopened)?;
    file_of(read_from(&mut file, list))
}
