// The cases of document 01 whose files are given by their bytes (tag 9 as document 02, request 13, has it), exact halves of a centimetre (request 4),
// needs by tag 6 and the sizes of request 8, and files for the refusals that they name no case of.
ghost use Rattle.std.specs.Prelude.{◌≤◌};

use crate::answers::{plan, plan_bytes, plan_each, plan_short_table, plan_short_work};
use sizes::MAX_FILE;

// Bad first fields of a file.
const FIRST_FIELDS: [(&str, &[u8]); 6] = [
    ("10 no byte", b""),
    ("5 header and comment", b"\x01\x01\x00\x01\x05\x00\x00"),
    ("5 tag 9 first", b"\x09\x00\x00"),
    ("5 tag 9 second", b"\x01\x01\x00\x01\x09\x01\x00\x02"),
    ("5 tag 3 first", b"\x03\x03\x00\x0f\x00a"),
    ("5 tag 6 first", b"\x06\x00\x00"),
];

// Fields behind header and limit, or a bad limit.
const LATER_FIELDS: [(&str, &[u8]); 6] = [
    ("4 tag 7", b"\x01\x01\x00\x01\x02\x01\x00\x03\x07\x00\x00"),
    ("4 tag 10", b"\x01\x01\x00\x01\x02\x01\x00\x03\x0a\x00\x00"),
    ("3 half a head", b"\x01\x01\x00\x01\x02\x01\x00\x03\x03"),
    (
        "3 half a value",
        b"\x01\x01\x00\x01\x02\x01\x00\x03\x03\x03\x00\x0f",
    ),
    (
        "a comment of length 0 at the end",
        b"\x01\x01\x00\x01\x02\x01\x00\x01\x03\x03\x00\x0f\x00a\x05\x00\x00",
    ),
    ("6 limit 65", b"\x01\x01\x00\x01\x02\x01\x00\x41"),
];

// Two jobs and a field of tag 6: the need 1-2, alone and behind the same by tag 4; one from job 257; one with numbers of one byte.
const WIDE_NEEDS: [(&str, &[u8]); 4] = [
    (
        "the need 1-2 by tag 6",
        b"\x01\x01\x00\x01\x02\x01\x00\x02\x03\x03\x00\x0f\x00a\x03\x03\x00\x0f\x00b\x06\x04\x00\x01\x00\x02\x00",
    ),
    (
        "by tag 4 and by tag 6",
        b"\x01\x01\x00\x01\x02\x01\x00\x02\x03\x03\x00\x0f\x00a\x03\x03\x00\x0f\x00b\x04\x02\x00\x01\x02\x06\x04\x00\x01\x00\x02\x00",
    ),
    (
        "8 job 257 of two",
        b"\x01\x01\x00\x01\x02\x01\x00\x02\x03\x03\x00\x0f\x00a\x03\x03\x00\x0f\x00b\x06\x04\x00\x01\x01\x02\x00",
    ),
    (
        "6 tag 6 of two bytes",
        b"\x01\x01\x00\x01\x02\x01\x00\x02\x03\x03\x00\x0f\x00a\x03\x03\x00\x0f\x00b\x06\x02\x00\x01\x02",
    ),
];

// Limit 3; jobs of 15, -15 and 4 millimetres with the names a, b and c; needs 1-3 and 2-3.
fn example(rt: &impl Print) {
    let file =
        b"\x01\x01\x00\x01\x02\x01\x00\x03\x03\x03\x00\x0f\x00a\x03\x03\x00\xf1\xffb\x03\x03\x00\x04\x00c\x04\x02\x00\x01\x03\x04\x02\x00\x02\x03";
    plan(rt, "the example", file);
    plan_bytes(rt, "its table", file);
    plan_short_work(rt, "1 a working buffer of 65535", file);
    plan_short_table(rt, "1 a table buffer of 7605", file);
}

// Limit 1; jobs a to h, each with an exact half of a centimetre: 25, 35, -25, 15, 5, -5, 45 and -15 millimetres.
fn halves(rt: &impl Print) {
    let file =
        b"\x01\x01\x00\x01\x02\x01\x00\x01\x03\x03\x00\x19\x00a\x03\x03\x00\x23\x00b\x03\x03\x00\xe7\xffc\x03\x03\x00\x0f\x00d\
        \x03\x03\x00\x05\x00e\x03\x03\x00\xfb\xfff\x03\x03\x00\x2d\x00g\x03\x03\x00\xf1\xffh";
    plan(rt, "exact halves", file);
    plan_bytes(rt, "its table", file);
}

// The line of a file of so many bytes, which begins with these.
fn plan_padded(rt: &impl Print, label: &str, front: &[u8; 17], size: usize)
    requires { size ≤ 49153 }
{
    let mut file = [0; MAX_FILE + 1];
    file[..17].copy_from_slice(front);
    plan(rt, label, &file[..size]);
}

// One job, limit 1, and a comment up to the last byte that a file may have; and the same with a comment that is one byte longer.
fn longest(rt: &impl Print) {
    plan_padded(
        rt,
        "a file of 49152 bytes",
        b"\x01\x01\x00\x01\x02\x01\x00\x01\x03\x03\x00\x0f\x00a\x05\xef\xbf",
        MAX_FILE,
    );
    plan_padded(
        rt,
        "2 a file of 49153 bytes",
        b"\x01\x01\x00\x01\x02\x01\x00\x01\x03\x03\x00\x0f\x00a\x05\xf0\xbf",
        MAX_FILE + 1,
    );
}

pub(crate) fn all(rt: &impl Print) {
    example(rt);
    halves(rt);
    plan_each(rt, &FIRST_FIELDS);
    plan_each(rt, &LATER_FIELDS);
    plan_each(rt, &WIDE_NEEDS);
    longest(rt);
}
