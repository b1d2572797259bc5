// Lists a recording on its standard output: the two arguments name the configuration and the data file.
// What it prints is the text that the crate `list_text` puts, which is proved; a file that can't be read, and wrong arguments, are one line on standard error.
#![tactic(auto)]

ghost use Rattle.std.specs.Prelude.{◌≡◌, ◌≢◌, ◌↔◌, ◌≤◌, length, pos, codes, Some, Err, IfOk, OnOk, IsTrue};
ghost use Rattle.std.specs.Io.KnownBytes.{Appends};
ghost use Rattle.std.specs.IoError.{raw_os_error};
ghost use Rattle.list_text.specs.Listing.{listing};
ghost use Rattle.list.specs.Inner.{Within, FirstBytes, fault_line, error_number, WithoutNumber};

use arrayvec::ArrayString;
use std::env::FillError;
use std::fs::File;
use std::io::{ErrorKind, Read, Write};
use std::rt::{Env, Files};
use std::{fmt, io, str};

// Room for one byte more than a file may have.
const FILE_ROOM: usize = 65537;

// Room for a path, with one byte more than the system takes.
const PATH_ROOM: usize = 4096;

// Room for the words of an error.
const WORDS_ROOM: usize = 256;

// What `Display` puts between the system's words for an error and its number.
const NUMBER: &str = " (os error ";

// Linux's numbers of two errors.
const INVALID_ARGUMENT: i32 = 22;

const NAME_TOO_LONG: i32 = 36;

// Room for a file.
fn empty_room() -> [u8; FILE_ROOM]
    ensures { 65537 ≡ length result }
{
    [0; FILE_ROOM]
}

// Reads on until the room is full or the input ends.
fn read_all<R: Read>(file: &mut R, room: &mut [u8]) -> io::Result<usize>
    ensures within { IfOk result (λ n. n ≤ length room.old) }
    ensures bytes { IfOk result (FirstBytes (R.remaining file.old) (R.remaining file.new) room.new) }
{
    let mut n = 0;
    while n < room.len() {
        let more = file.read(&mut room[n..])?;
        if more == 0 {
            return Ok(n);
        }
        n += more;
    }
    Ok(n)
}

// The system's words for an error, without its number.
fn words(message: &str) -> &str
    ensures { WithoutNumber message.now result.now }
{
    match message.split_once(NUMBER) {
        Some((words, _)) => words,
        None => message,
    }
}

// Writes the line that says why there is no listing.
fn put_fault<W: Write>(err: &mut W, what: &[u8], path: &[u8], why: &str) -> io::Result<()>
    ensures { OnOk result (Appends (W.contents err.old) (W.contents err.new) (fault_line what.now path.now why.now)) }
{
    err.write_all(what)?;
    err.write_all(path)?;
    err.write_all(b": ")?;
    err.write_all(why.as_bytes())?;
    err.write_all(b"\n")
}

// Says which file can't be read, and why.
fn fail<W: Write>(err: &mut W, what: &[u8], path: &[u8], why: &io::Error) -> Option<usize>
    ensures { result ≡ None }
{
    let mut message = ArrayString::<WORDS_ROOM>::new();
    let _ = fmt::Write::write_fmt(&mut message, why);
    let _ = put_fault(err, what, path, words(message.as_str()));
    None
}

// Reads the file of a name, which has to be UTF-8.
fn try_read_file<R: Files>(files: &R, path: &[u8], room: &mut [u8]) -> io::Result<usize>
    ensures { IfOk result (λ n. n ≤ length room.old) }
{
    let Ok(name) = str::from_utf8(path) else {
        return Err(io::Error::new(ErrorKind::InvalidInput, "the name is not UTF-8"));
    };
    let mut file = File::open(files, name)?;
    read_all(&mut file, room)
}

// Reads the file of a name, so many bytes, or none for a reason that it tells.
fn read_file<R: Files, W: Write>(
    files: &R,
    err: &mut W,
    what: &[u8],
    path: &[u8],
    room: &mut [u8],
) -> Option<usize>
    ensures { Within (length room.old) result }
{
    match try_read_file(files, path, room) {
        Ok(n) => Some(n),
        Err(why) => fail(err, what, path, &why),
    }
}

// Why an argument can't be had.
fn argument_error(found: FillError) -> io::Error
    ensures { raw_os_error result ≡ Some (pos (error_number found)) }
{
    match found {
        FillError::NotPresent => io::Error::from_raw_os_error(INVALID_ARGUMENT),
        FillError::TooLong => io::Error::from_raw_os_error(NAME_TOO_LONG),
    }
}

// Reads the file that argument i names.
fn read_argument<R: Env + Files, W: Write>(
    rt: &R,
    err: &mut W,
    what: &[u8],
    i: usize,
    room: &mut [u8],
) -> Option<usize>
    ensures { Within (length room.old) result }
{
    let mut path = [0; PATH_ROOM];
    match rt.arg(i, &mut path) {
        Ok(n) => read_file(rt, err, what, &path[..n], room),
        Err(found) => fail(err, what, b"", &argument_error(found)),
    }
}

// Whether there is an argument, be there room for it or not.
fn is_given(found: &Result<usize, FillError>) -> bool
    ensures { IsTrue result ↔ (found.now ≢ Err FillError.NotPresent) }
{
    !matches!(found, Err(FillError::NotPresent))
}

// Prints the listing. It stays a function of its own, so that only a run that lists has its room on the stack.
#[inline(never)]
fn print<O: Write>(out: &mut O, cfg: &[u8], dat: &[u8]) -> io::Result<()>
    ensures { OnOk result (Appends (O.contents out.old) (O.contents out.new) (listing cfg.now dat.now)) }
{
    let mut text = [0u8; list_text::ROOM];
    let n = list_text::put_listing(cfg, dat, &mut text);
    out.write_all(&text[..n])
}

// Lists the recording that the arguments name. A reader that has had enough is told nothing.
fn run<R: Env + Files, O: Write, W: Write>(rt: &R, out: &mut O, err: &mut W) {
    if !is_given(&rt.arg(2, &mut [])) || is_given(&rt.arg(3, &mut [])) {
        let _ = err.write_all(b"usage: list CONFIGURATION DATA\n");
        return;
    }
    let mut cfg = empty_room();
    let Some(n) = read_argument(rt, err, b"list: configuration ", 1, &mut cfg) else {
        return;
    };
    let mut dat = empty_room();
    let Some(m) = read_argument(rt, err, b"list: data file ", 2, &mut dat) else {
        return;
    };
    match print(out, &cfg[..n], &dat[..m]) {
        Ok(()) => {}
        Err(why) if why.kind() == ErrorKind::BrokenPipe => {}
        Err(why) => {
            fail(err, b"list: standard output", b"", &why);
        }
    }
}

fn main(rt: HostRuntime) {
    run(&rt, &mut rt.stdout(), &mut rt.stderr());
}
