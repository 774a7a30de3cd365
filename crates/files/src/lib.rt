// Reading and writing the file that an argument names.
#![tactic(auto)]

ghost use Rattle.std.specs.Prelude.{◌≡◌, ◌≤◌, length, IfSome};
ghost use Rattle.io.specs.Counts.{IsPrefixLen};

use std::env::FillError;
use std::fmt::InlineText;
use std::fs;
use std::io::{Error, Read, Result, Write};
use std::rt::{Env, Files};
use std::str::from_utf8;
use streams::STDERR_FILENO;

// How many arguments the program was started with, its own name among them; `most` where there are more. (How many there are, no clause can say.)
pub fn argument_count(rt: &impl Env, most: usize) -> usize
    ensures { result ≤ most }
{
    for i in 0..most {
        if !has_argument(rt, i) {
            return i;
        }
    }
    most
}

fn has_argument(rt: &impl Env, i: usize) -> bool {
    let mut first = [0u8; 1];
    match rt.arg(i, &mut first) {
        Ok(_) => true,
        Err(FillError::TooLong) => true,
        Err(FillError::NotPresent) => false,
    }
}

// Puts argument i at the start of the buffer; gives its length, or none where it is missing or longer than the buffer.
fn argument(rt: &impl Env, i: usize, buf: &mut [u8]) -> Option<usize>
    ensures { IfSome result (λ n. IsPrefixLen n buf.new) }
{
    rt.arg(i, buf).ok()
}

// Writes a line to standard error: the name of a file, and what went wrong with it.
fn fail(name: &[u8], why: &str) {
    io::write_all(STDERR_FILENO, name);
    io::write_all(STDERR_FILENO, b": ");
    io::write_all(STDERR_FILENO, why.as_bytes());
    io::write_all(STDERR_FILENO, b"\n");
}

// The same, of an error of the system's: its text, without its number.
fn fail_by(name: &[u8], error: Error) {
    let text = InlineText::<128>::of(error);
    match text.as_str().split_once(" (os error ") {
        Some((why, _)) => fail(name, why),
        None => fail(name, text.as_str()),
    }
}

// The file that was opened; where it could not be, a line on standard error says why.
fn opened<F>(name: &[u8], file: Result<F>) -> Option<F> {
    match file {
        Ok(file) => Some(file),
        Err(error) => {
            fail_by(name, error);
            None
        }
    }
}

// The name of a file as text; where it is none, a line on standard error says so.
fn path(name: &[u8]) -> Option<&str> {
    match from_utf8(name) {
        Ok(path) => Some(path),
        Err(_) => {
            fail(name, "The name is not UTF-8");
            None
        }
    }
}

fn open_read<R: Files>(rt: &R, name: &[u8]) -> Option<R::File> {
    opened(name, fs::open(rt, path(name)?))
}

fn open_overwrite<R: Files>(rt: &R, name: &[u8]) -> Option<R::File> {
    opened(name, fs::create(rt, path(name)?))
}

// Reads until the buffer is full or the input ends; gives how many bytes stand at its start then. Where it cannot be read, a line on standard error says
// why.
fn fill<F: Read>(file: &mut F, name: &[u8], buf: &mut [u8]) -> Option<usize>
    ensures { IfSome result (λ n. IsPrefixLen n buf.new) }
{
    let mut count = 0;
    // No `for`: how many bytes a read brings is known only behind it.
    while count < buf.len() {
        match file.read(&mut buf[count..]) {
            Ok(0) => return Some(count),
            Ok(more) => {
                count += more;
            }
            Err(error) => {
                fail_by(name, error);
                return None;
            }
        }
    }
    Some(count)
}

// Puts the file that argument i names, or as much of it as fits, at the start of the buffer; gives how many bytes that are. Where it cannot be read, a line
// on standard error says why. An argument that is missing, or longer than a path may be, is the empty path.
pub fn read_argument(rt: &(impl Env + Files), i: usize, buf: &mut [u8]) -> Option<usize>
    ensures { IfSome result (λ n. IsPrefixLen n buf.new) }
{
    let mut path = io::buffer();
    let n = argument(rt, i, &mut path).unwrap_or(0);
    let mut file = open_read(rt, &path[..n])?;
    fill(&mut file, &path[..n], buf)
}

// Whether all of these bytes were written; where they were not, a line on standard error says why.
fn put<F: Write>(file: &mut F, name: &[u8], bytes: &[u8]) -> bool {
    match file.write_all(bytes) {
        Ok(()) => true,
        Err(error) => {
            fail_by(name, error);
            false
        }
    }
}

// Writes these bytes to the file that argument i names, in place of what it held; gives how many they are, or none where not all of them were written, and a
// line on standard error says why.
pub fn write_argument(rt: &(impl Env + Files), i: usize, bytes: &[u8]) -> Option<usize>
    ensures { IfSome result (λ n. n ≡ length bytes.now) }
{
    let mut path = io::buffer();
    let n = argument(rt, i, &mut path).unwrap_or(0);
    let mut file = open_overwrite(rt, &path[..n])?;
    let written = put(&mut file, &path[..n], bytes);
    if written { Some(bytes.len()) } else { None }
}
