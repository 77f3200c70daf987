// The refusals of the schedule of a text, with what stands beside them, and their order.
use crate::asks;
use std::io;
use triangle::LARGEST;

// The example of the manual, the outline of no lines, and refusal 1.
pub fn sizes(rt: &impl Print) -> io::Result<()> {
    asks::read(rt, 3, b"1\n1.1\n1.2\n", 6)?;
    asks::read(rt, 0, b"", 0)?;
    asks::read(rt, LARGEST + 1, b"1\n", 66)?;
    asks::read(rt, 200, b"", 0)?;
    asks::read(rt, 256, b"", 0)?;
    asks::read(rt, 257, b"1\n", 2)?;
    asks::read(rt, 9223372036854775808, b"", 0)?;
    asks::read(rt, 18446744073709551615, b"1\n", 2)
}

// Refusal 3.
pub fn lengths(rt: &impl Print) -> io::Result<()> {
    asks::read(rt, 1, b"1\n", 2)?;
    asks::read(rt, 1, b"1\n", 1)?;
    asks::read(rt, 1, b"1\n", 3)?;
    asks::read(rt, 1, b"1\n", 0)?;
    asks::read(rt, 3, b"1\n1.1\n1.2\n", 5)?;
    asks::read(rt, 3, b"1\n1.1\n1.2\n", 7)?;
    asks::read(rt, 0, b"", 1)?;
    asks::read(rt, 0, b"", 2)
}

// 1 before 3 and 15, and 3 before 15.
pub fn first_refusals(rt: &impl Print) -> io::Result<()> {
    asks::read(rt, LARGEST + 1, b"1\n", 0)?;
    asks::read(rt, LARGEST + 1, b"2\n", 66)?;
    asks::read(rt, LARGEST + 1, b"", 1)?;
    asks::read(rt, 1, b"2\n", 1)?;
    asks::read(rt, 1, b"", 3)?;
    asks::read(rt, 0, b"1\n", 1)
}

// Refusal 15 where nothing is to come.
pub fn nothing(rt: &impl Print) -> io::Result<()> {
    asks::read(rt, 0, b"\n", 0)?;
    asks::read(rt, 0, b"1\n", 0)?;
    asks::read(rt, 0, b"1", 0)?;
    asks::read(rt, 0, b" ", 0)
}

// Lines that are missing, the last one without its line feed among them.
pub fn missing(rt: &impl Print) -> io::Result<()> {
    asks::read(rt, 1, b"", 2)?;
    asks::read(rt, 2, b"1\n", 4)?;
    asks::read(rt, 3, b"1\n1.1\n", 6)?;
    asks::read(rt, LARGEST, b"1\n1.1\n", 64)?;
    asks::read(rt, 1, b"1", 2)?;
    asks::read(rt, 2, b"1\n2", 4)?;
    asks::read(rt, 3, b"1\n1.1\n1.2", 6)?;
    asks::read(rt, 3, b"1\n1.1\n1.", 6)?;
    asks::read(rt, 3, b"1\n1.1\n1", 6)
}

// What is there after the last line.
pub fn surplus(rt: &impl Print) -> io::Result<()> {
    asks::read(rt, 1, b"1\n2\n", 2)?;
    asks::read(rt, 1, b"1\n1.1\n", 2)?;
    asks::read(rt, 1, b"1\n\n", 2)?;
    asks::read(rt, 1, b"1\n1", 2)?;
    asks::read(rt, 1, b"1\n01\n", 2)?;
    asks::read(rt, 2, b"1\n1.1\n1.2\n", 4)?;
    asks::read(rt, 2, b"1\n2\n3", 4)?;
    asks::read(rt, 2, b"1\n2\n1\n2\n", 4)
}

// An empty line, a leading zero, a 0.
pub fn odd_numbers(rt: &impl Print) -> io::Result<()> {
    asks::read(rt, 1, b"\n", 2)?;
    asks::read(rt, 1, b"\n1\n", 2)?;
    asks::read(rt, 2, b"1\n\n", 4)?;
    asks::read(rt, 2, b"1\n\n2\n", 4)?;
    asks::read(rt, 1, b"01\n", 2)?;
    asks::read(rt, 2, b"1\n02\n", 4)?;
    asks::read(rt, 2, b"1\n1.01\n", 4)?;
    asks::read(rt, 2, b"1\n01.1\n", 4)?;
    asks::read(rt, 1, b"0\n", 2)?;
    asks::read(rt, 2, b"1\n1.0\n", 4)
}

// A carriage return, a space, a tab, a byte 0, a letter, a sign; 255 is no digit, and 177 is 1 with its high bit.
pub fn odd_bytes(rt: &impl Print) -> io::Result<()> {
    asks::read(rt, 1, &[49, 13, 10], 2)?;
    asks::read(rt, 2, &[49, 10, 13, 10], 4)?;
    asks::read(rt, 1, b"1 \n", 2)?;
    asks::read(rt, 1, b" 1\n", 2)?;
    asks::read(rt, 2, b"1\n 1.1\n", 4)?;
    asks::read(rt, 2, &[49, 9, 10, 50, 10], 4)?;
    asks::read(rt, 1, &[49, 0, 10], 2)?;
    asks::read(rt, 1, b"a\n", 2)?;
    asks::read(rt, 1, b"+1\n", 2)?;
    asks::read(rt, 1, &[255, 10], 2)?;
    asks::read(rt, 1, &[177, 10], 2)
}

// Dots where there should be none, and none where there should be one.
pub fn odd_dots(rt: &impl Print) -> io::Result<()> {
    asks::read(rt, 1, b"1.\n", 2)?;
    asks::read(rt, 1, b".1\n", 2)?;
    asks::read(rt, 2, b"1\n1.\n", 4)?;
    asks::read(rt, 2, b"1\n1..1\n", 4)?;
    asks::read(rt, 2, b"1\n1.1.\n", 4)?;
    asks::read(rt, 2, b"1\n11\n", 4)?;
    asks::read(rt, 2, b"1\n1,1\n", 4)
}

// Levels and sisters out of turn: sisters numbered on from the last level, from the last list, or not from 1.
pub fn turns(rt: &impl Print) -> io::Result<()> {
    asks::read(rt, 2, b"2\n1\n", 4)?;
    asks::read(rt, 2, b"1\n1\n", 4)?;
    asks::read(rt, 2, b"1\n3\n", 4)?;
    asks::read(rt, 2, b"1\n1.2\n", 4)?;
    asks::read(rt, 2, b"1\n1.1.1\n", 4)?;
    asks::read(rt, 2, b"1\n2.1\n", 4)?;
    asks::read(rt, 3, b"1\n1.1\n3\n", 6)?;
    asks::read(rt, 4, b"1\n1.1\n2\n2.2\n", 8)?;
    asks::read(rt, 3, b"1\n1.1\n1.1\n", 6)?;
    asks::read(rt, 3, b"1\n1.1\n1.3\n", 6)?;
    asks::read(rt, 3, b"1\n1.1\n2.1\n", 6)?;
    asks::read(rt, 3, b"1\n2\n1.1\n", 6)?;
    asks::read(rt, 4, b"1\n1.1\n2\n1.2\n", 8)?;
    asks::read(rt, 3, b"1\n3\n5\n", 6)
}

// Numbers of two digits, and numbers that are right but for a power of two.
pub fn large_numbers(rt: &impl Print) -> io::Result<()> {
    asks::read(rt, 10, b"1\n2\n3\n4\n5\n6\n7\n8\n9\n10\n", 20)?;
    asks::read(rt, 11, b"1\n2\n3\n4\n5\n6\n7\n8\n9\n10\n10.1\n", 22)?;
    asks::read(
        rt,
        11,
        b"1\n1.1\n1.2\n1.3\n1.4\n1.5\n1.6\n1.7\n1.8\n1.9\n1.10\n",
        22,
    )?;
    asks::read(rt, 10, b"1\n2\n3\n4\n5\n6\n7\n8\n9\n010\n", 20)?;
    asks::read(rt, 10, b"1\n2\n3\n4\n5\n6\n7\n8\n9\n1\n", 20)?;
    asks::read(rt, 10, b"1\n2\n3\n4\n5\n6\n7\n8\n9\n:\n", 20)?;
    asks::read(rt, 11, b"1\n2\n3\n4\n5\n6\n7\n8\n9\n10\n1.1\n", 22)?;
    asks::read(rt, 1, b"257\n", 2)?;
    asks::read(rt, 2, b"1\n4294967298\n", 4)?;
    asks::read(rt, 1, b"18446744073709551617\n", 2)
}
