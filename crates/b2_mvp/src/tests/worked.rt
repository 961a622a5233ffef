// The worked examples: runs with what they show, print and write.
use super::{run, shelf_with};
use b2_base::lexical::{first_bytes, rest_after};
use b2_base::{MemSink, cut};
use std::alloc::{AllocError, Global};
use std::test::Fail;

// A command and its log, files that it keeps by name, pieces of the disk D11 with their place and length, 00 where they are
// longer than their bytes, and how the summary ends. Without a log, what terminal 1 shows after its prompts is typed there.
#[derive(Drop)]
struct Row {
    words: &'static [u8],
    log: &'static [u8],
    kept: &'static [(&'static [u8], &'static [u8])],
    disk: &'static [(usize, usize, &'static [u8])],
    ends: &'static [u8],
}

// What most rows have.
const PLAIN: Row = Row {
    words: b"run one log out",
    log: b"",
    kept: &[],
    disk: &[],
    ends: b"\n",
};

// Partitions 1 and 2 each make a file on D12, and 1 comes back to it; 1 and 3 ask D11, which nobody wrote.
#[rattlefmt::skip]
const MEETING: &[u8] = b"\
type 1 DATASAVE DC OPEN T/D12,2,\"A\"\nrounds 20\n\
type 2 DATASAVE DC OPEN T/D12,2,\"B\"\nrounds 20\n\
type 1 LIMITS T/D12,A,B,C\nrounds 20\n\
type 1 LIMITS T/D11,A,B,C:PRINT A;B;C\nrounds 20\n\
type 3 LIMITS T/D11,A,B,C:PRINT A;B;C\nrounds 20\n";

#[rattlefmt::skip]
const ROWS: [Row; 24] = [
    // Nothing happens without turns, and a blank disk is written.
    Row { words: b"run two log out", kept: &[(b"out.t01", b""), (b"out.t02", b"")], disk: &[(0, 16384, b"\x01\x02\x00\x40\x00\x40\x00\x02")], ends: b"turns 0 steps 0 dropped 0 apart 1,2\n", ..PLAIN },
    // Numbers and their printed form.
    Row { kept: &[(b"out.t01", b"READY\n\
:PRINT 1/3\n .3333333333333 \n\
:PRINT -2/3\n-.6666666666667 \n\
:PRINT 1E13\n 1.00000000E+13 \n\
:PRINT .05\n 5.00000000E-02 \n\
:PRINT SQR(2)\n 1.414213562373 \n:")], ..PLAIN },
    // Rounding, and none.
    Row { kept: &[(b"out.t01", b"READY\n\
:PRINT 9999999999999+.5\n 1.00000000E+13 \n\
:SELECT NO ROUND\n\
:PRINT 9999999999999+.5\n 9999999999999 \n:")], ..PLAIN },
    // What has no number, or none that is small or large enough.
    Row { kept: &[(b"out.t01", b"READY\n\
:PRINT 0/0\nERR C63\n\
:PRINT 1/0\nERR C62\n\
:PRINT 9E99*10\nERR C61\n\
:PRINT 1E-99/10\nERR C60\n:")], ..PLAIN },
    // Bytes that are added, and a part of a text.
    Row { kept: &[(b"out.t01", b"READY\n\
:A$=HEX(FF):A$=ADDC HEX(01):PRINT HEXOF(A$)\nFF202020202020202020202020202021\n\
:A$=\"ABCDEF\":STR(A$,2,3)=\"xy\":PRINT A$\nAxy EF\n:")], ..PLAIN },
    // Lines of the most bytes, and one of more, which leaves the text as it was.
    Row { kept: &[(b"out.t01", b"READY\n\
:10 REMAAAAAAAAAAAAAAAAAAAAAAAAAAAAAAAAAAAAAAAAAAAAAAAAAAAAAAAAAAAAAAAAAAAAAAAAAAAAAAAAAAAAAAAAAAAAAAAAAAAAAAAAAAAAAAAAAAAAAAAAAAAAAAAAAAAAAAAAAAAAAAAAAAAAAAAAAAAAAAAAAAAAAAAAAAAAAAAAAAAAAAAAAAAAAAAAAAAAAAAAAAAAAAAAAAAAAAAAAAAAAAAAAAAAAAAAAAAAAAAAAAAAAAAAAA\n\
:20 ON A GOTO 1,1,1,1,1,1,1,1,1,1,1,1,1,1,1,1,1,1,1,1,1,1,1,1,1,1,1,1,1,1,1,1,1,1,1,1,1,1,1,1,1,1,1,1,1,1,1,1,1,1,1,1,1,1,1,1,1,1,1,1,1,1,1\n\
:30 ON A GOTO 1,1,1,1,1,1,1,1,1,1,1,1,1,1,1,1,1,1,1,1,1,1,1,1,1,1,1,1,1,1,1,1,1,1,1,1,1,1,1,1,1,1,1,1,1,1,1,1,1,1,1,1,1,1,1,1,1,1,1,1,1,1,1,1\nERR A05\n\
:LIST 30\n:")], ..PLAIN },
    // A text that is filled to the byte.
    Row { words: b"run small log out", kept: &[(b"out.t01", b"READY\n\
:1REMAAAAAAAAAAAAAAAAAAAAAAAAAAAAAAAAAAAAAAAAAAAAAAAAAAAAAAAAAAAAAAAAAAAAAAAAAAAAAAAAAAAAAAAAAAAAAAAAAAAAAAAAAAAAAAAAAAAAAAAAAAAAAAAAAAAAAAAAAAAAAAAAAAAAAAAAAAAAAAAAAAAAAAAAAAAAAAAAAAAAAAAAAAAAAAAAAAAAAAAAAAAAAAAAAAAAAAAAAAAAAAAAAAAAAAAAAAAAAAAAAAAAAAAAAA\n\
:2REMAAAAAAAAAAAAAAAAAAAAAAAAAAAAAAAAAAAAAAAAAAAAAAAAAAAAAAAAAAAAAAAAAAAAAAAAAAAAAAAAAAAAAAAAAAAAAAAAAAAAAAAAAAAAAAAAAAAAAAAAAAAAAAAAAAAAAAAAAAAAAAAAAAAAAAAAAAAAAAAAAAAAAAAAAAAAAAAAAAAAAAAAAAAAAAAAAAAAAAAAAAAAAAAAAAAAAAAAAAAAAAAAAAAAAAAAAAAAAAAAAAAAAAAAAA\n\
:3REMAAAAAAAAAAAAAAAAAAAAAAAAAAAAAAAAAAAAAAAAAAAAAAAAAAAAAAAAAAAAAAAAAAAAAAAAAAAAAAAAAAAAAAAAAAAAAAAAAAAAAAAAAAAAAAAAAAAAAAAAAAAAAAAAAAAAAAAAAAAAAAAAAAAAAAAAAAAAAAAAAAAAAAAAAAAAAAAAAAAAAAAAAAAAAAAAAAAAAAAAAAAAAAAAAAAAAAAAAAAAAAAAAAAAAAAAAAAAAAAAAAAAAAAAAA\n\
:4REMAAAAAAAAAAAAAAAAAAAAAAAAAAAAAAAAAAAAAAAAAAAAAAAAAAAAAAAAAAAAAAAAAAAAAAAAAAAAAAAAAAAAAAAAAAAAAAAAAAAAAAAAAAAAAAAAAAAAAAAAAAAAAAAAAAAAAAAAAAAAAAAAAAAAAAAAAAAAAAAAAAAAAAAAAAAAAAAAAAAAAAAAAAAAAAAAAAAAAAAAAAAAAAAAAAAAAAAAAAAAAAAAAAAAAAAAAAAAAAAAAAAAAAAAAA\n\
:5REMAAAAAAAAAAAAAAAAAAAAAAAAAAAAAAAAAAAAAAAAAAAAAAAAAAAAAAAAAAAAAAAAAAAAAAAAAAAAAAAAAAAAAAAAAAAAAAAAAAAAAAAAAAAAAAAAAAAAAAAAAAAAAAAAAAAAAAAAAAAAAAAAAAAAAAAAAAAAAAAAAAAAAAAAAAAAAAAAAAAAAAAAAAAAAAAAAAAAAAAAAAAAAAAAAAAAAAAAAAAAAAAAAAAAAAAAAAAAAAAAAAAAAAAAAA\n\
:6REMAAAAAAAAAAAAAAAAAAAAAAAAAAAAAAAAAAAAAAAAAAAAAAAAAAAAAAAAAAAAAAAAAAAAAAAAAAAAAAAAAAAAAAAAAAAAAAAAAAAAAAAAAAAAAAAAAAAAAAAAAAAAAAAAAAAAAAAAAAAAAAAAAAAAAAAAAAAAAAAAAAAAAAAAAAAAAAAAAAAAAAAAAAAAAAAAAAAAAAAAAAAAAAAAAAAAAAAAAAAAAAAAAAAAAAAAAAAAAAAAAAAAAAAAAA\n\
:7REMAAAAAAAAAAAAAAAAAAAAAAAAAAAAAAAAAAAAAAAAAAAAAAAAAAAAAAAAAAAAAAAAAAAAAAAAAAAAAAAAAAAAAAAAAAAAAAAAAAAAAAAAAAAAAAAAAAAAAAAAAAAAAAAAAAAAAAAAAAAAAAAAAAAAAAAAAAAAAAAAAAAAAAAAAAAAAAAAAAAAAAAAAAAAAAAAAAAAAAAAAAAAAAAAAAAAAAAAAAAAAAAAAAAAAAAAAAAAAAAAAAAAAAAAAA\n\
:8REMAAAAAAAAAAAAAAAAAAAAAAAAAAAAAAAAAAAAAAAAAAAAAAAAAAAAAAAAAAAAAAAAAAAAAAAAAAAAAAAAAAAAAAAAAAAAAAAAAAAAAAAAAAAAAAAAAAAAAAAAAAAAAAAAAAAAAAAAAAAAAAAAAAAAAAAAAAAAAAAAAAAAAAAAAAAAAAAAAAAAAAAAAAAAAAAAAAAAAAAAAAAAAAAAAAAAAAAAAAAAAAAAAAAAAAAAAAAAAAAAAAAAAAAAAAA\nERR A01\n\
:8REMAAAAAAAAAAAAAAAAAAAAAAAAAAAAAAAAAAAAAAAAAAAAAAAAAAAAAAAAAAAAAAAAAAAAAAAAAAAAAAAAAAAAAAAAAAAAAAAAAAAAAAAAAAAAAAAAAAAAAAAAAAAAAAAAAAAAAAAAAAAAAAAAAAAAAAAAAAAAAAAAAAAAAAAAAAAAAAAAAAAAAAAAAAAAAAAAAAAAAAAAAAAAAAAAAAAAAAAAAAAAAAAAAAAAAAAAAAAAAAAAAAAAAAAAAA\n\
:9REM\nERR A01\n:")], ..PLAIN },
    // A fault that ERROR takes, and an ERROR that is reached in order.
    Row { kept: &[(b"out.t01", b"READY\n\
:10 X=1/0:ERROR PRINT ERR\n\
:RUN\n 62 \n\
:10 X=1:ERROR PRINT 7\n\
:RUN\n:")], ..PLAIN },
    // Two partitions append to one file in turn.
    Row { words: b"run two log out", log: b"\
type 1 DATASAVE DC OPEN T,#1,9,\"F\"\nrounds 20\n\
type 2 DATALOAD DC OPEN T,#1,\"F\"\nrounds 20\n\
type 1 FOR I=1 TO 3:DSKIP #1,END:DATASAVE DC #1,I:DATASAVE DC #1,END:$BREAK:NEXT I\n\
type 2 FOR I=1 TO 3:DSKIP #1,END:DATASAVE DC #1,-I:DATASAVE DC #1,END:$BREAK:NEXT I\nrounds 8\n\
type 1 LIMITS T,\"F\",A,B,C:PRINT A;B;C\nrounds 20\n\
type 1 DBACKSPACE #1,BEG:FOR I=1 TO 6:DATALOAD DC #1,X:PRINT X;:NEXT I\nrounds 20\n", kept: &[(b"out.t01", b"READY\n\
:DATASAVE DC OPEN T,#1,9,\"F\"\n\
:FOR I=1 TO 3:DSKIP #1,END:DATASAVE DC #1,I:DATASAVE DC #1,END:$BREAK:NEXT I\n\
:LIMITS T,\"F\",A,B,C:PRINT A;B;C\n 2  10  7 \n\
:DBACKSPACE #1,BEG:FOR I=1 TO 6:DATALOAD DC #1,X:PRINT X;:NEXT I\n 1 -1  2 -2  3 -3 \n:")], ends: b" apart -\n", ..PLAIN },
    // Who asks for a disk that another holds waits; once it is free the step is done.
    Row { words: b"run two log out", log: b"\
type 2 $OPEN /D11\nrounds 1\n\
type 1 LIMITS T/D11,A,B,C:PRINT A;B;C\nrounds 3\n", kept: &[(b"out.t01", b"READY\n:LIMITS T/D11,A,B,C:PRINT A;B;C\n")], ..PLAIN },
    Row { words: b"run two log out", log: b"\
type 2 $OPEN /D11\nrounds 1\n\
type 1 LIMITS T/D11,A,B,C:PRINT A;B;C\nrounds 3\n\
type 2 $CLOSE\nrounds 2\n", kept: &[(b"out.t01", b"READY\n:LIMITS T/D11,A,B,C:PRINT A;B;C\n 2  64  2 \n")], ..PLAIN },
    // Or it goes on at a line, where that is there; and a printer prints.
    Row { words: b"run two log out", log: b"\
type 2 $OPEN /D11\nrounds 20\n\
type 1 10 $OPEN 100,/D11:PRINT \"MINE\":END\nrounds 20\n\
type 1 100 PRINT \"BUSY\"\nrounds 20\n\
type 1 RUN\nrounds 20\n\
type 1 100\nrounds 20\n\
type 1 RUN\nrounds 20\n\
type 1 SELECT PRINT 215:PRINT \"A\"\nrounds 20\n", kept: &[(b"out.t01", b"READY\n\
:10 $OPEN 100,/D11:PRINT \"MINE\":END\n\
:100 PRINT \"BUSY\"\n\
:RUN\nBUSY\n\
:100\n\
:RUN\nERR P36 AT 10\n\
:SELECT PRINT 215:PRINT \"A\"\n:"), (b"out.p215", b"A\n")], ..PLAIN },
    // Two meet at a disk. A third, who meets nobody, shows the same alone.
    Row { words: b"run three log out", log: MEETING, kept: &[(b"out.t03", b"READY\n\
:LIMITS T/D11,A,B,C:PRINT A;B;C\n 2  64  2 \n:")], ends: b" apart 3\n", ..PLAIN },
    Row { words: b"alone three log out 3", log: MEETING, kept: &[(b"out.t03", b"READY\n\
:LIMITS T/D11,A,B,C:PRINT A;B;C\n 2  64  2 \n:")], ..PLAIN },
    // An index is filled: sixteen names take the first sector and a slot of the second, fifteen more the others. A scratched file
    // gives its sectors again.
    Row { words: b"run large log out", kept: &[(b"out.t01", b"READY\n\
:DIM A$31:A$=\"BDFHJLNPRTVXZ024\":FOR I=1 TO 16:DATASAVE DC OPEN T,2,STR(A$,I,1):NEXT I\n\
:A$=\"ACEGIKMOQSUWY13\":FOR I=1 TO 15:DATASAVE DC OPEN T,2,STR(A$,I,1):NEXT I\n\
:DATASAVE DC OPEN T,2,\"5\"\nERR D85\n\
:SCRATCH T,\"B\":DATASAVE DC OPEN T,(\"B\"),\"B\"\n\
:LIMITS T,\"B\",A,B,C:PRINT A;B;C\n 2  3  1 \n:")], disk: &[(0, 8, b"\x01\x02\x01\x00\x01\x00\x00\x40"), (256, 16, b"\x10\x44\x00\x20\x00\x21\x00\x004       ")], ..PLAIN },
    // A full queue drops keys.
    Row { log: b"\
keys 1 AAAAAAAAAABBBBBBBBBBCCCCCCCCCCDDDDDDDDDDEEEEEEEEEEFFFFFFFFFFABCDE\n\
keys 1 AAAAAAAAAABBBBBBBBBBCCCCCCCCCCDDDDDDDDDDEEEEEEEEEEFFFFFFFFFFABCDE\n\
rounds 2\n", kept: &[(b"out.t01", b"READY\n:AAAAAAAAAABBBBBBBBBBCCCCCCCCCCDDDDDDDDDDEEEEEEEEEEFFFFFFFFFFABCDEAAAAAAAAAABBBBBBBBBBCCCCCCCCCCDDDDDDDDDDEEEEEEEEEEFFFFFFFFFFABC")], ends: b"turns 2 steps 1 dropped 2 apart 1\n", ..PLAIN },
    // A program is saved, and loaded again.
    Row { log: b"\
type 1 10 PRINT \"HI\"\n\
type 1 SAVE T,\"P\"\n\
type 1 CLEAR\n\
type 1 LOAD T,\"P\"\n\
type 1 RUN\nrounds 9\n", kept: &[(b"out.t01", b"READY\n\
:10 PRINT \"HI\"\n\
:SAVE T,\"P\"\n\
:CLEAR\nREADY\n\
:LOAD T,\"P\"\n\
:RUN\nHI\n:")], ..PLAIN },
    // Packed fields.
    Row { kept: &[(b"out.t01", b"READY\n\
:F$=HEX(A0055203):N$=\"AB\":X=-12.34:$PACK(F=F$)A$ FROM N$,X:PRINT HEXOF(STR(A$,1,8))\n414220202001234D\n\
:$UNPACK(F=F$)A$ TO M$,Y:PRINT M$;Y\nAB-12.34 \n:")], ..PLAIN },
    // Whole arrays.
    Row { kept: &[(b"out.t01", b"READY\n\
:DIM A$(3)2,W$(3)2,L$(3)2:A$(1)=\"C\":A$(2)=\"A\":A$(3)=\"B\":MAT SORT A$() TO W$(),L$():PRINT HEXOF(L$(1));HEXOF(L$(2))\n00020003\n\
:DIM A(2,2),B(2,2):MAT A=CON:MAT B=A+A:MAT A=B*B:PRINT A(1,1)\n 8 \n:")], ..PLAIN },
    // What is scratched isn't moved.
    Row { kept: &[(b"out.t01", b"READY\n\
:DATASAVE DC OPEN T,2,\"F\"\n\
:DATASAVE DC OPEN T,2,\"G\"\n\
:SCRATCH T,\"F\"\n\
:MOVE T/D11 TO T/D12\n\
:LIMITS T/D12,\"G\",A,B,C:PRINT A;B;C\n 2  3  1 \n:")], ..PLAIN },
    // A line is listed as it is kept; and the first code of two that aren't read.
    Row { kept: &[(b"out.t01", b"READY\n\
:10   for i=1to3:print i;:nexti\n\
:LIST\n10 FOR I=1 TO 3:PRINT I;:NEXT I\n\
:RUN\n 1  2  3 \n\
:PRINT SIN(1)\nERR S27 COL 7\n\
:10 GOTO\nERR S15 COL 8\n:")], ..PLAIN },
    // The screen of a transcript; and images that fail a check, of which one is empty.
    Row { words: b"screen log", log: b"READY\n:PRINT 2+2\n 4 \n:", ends: b"READY\n:PRINT 2+2\n 4\n:\n\n\n\n\n\n\n\n\n\n\n\n\n\n\n\n\n\n\n\n\n", ..PLAIN },
    Row { words: b"check hidden", ends: b"bad 7\n", ..PLAIN },
    Row { words: b"check log", ends: b"bad 1\n", ..PLAIN },
];

// Types a line, with rounds enough for it. Most of a long one goes in pieces before the rest, with a turn after each.
fn type_line(log: &mut Vec<u8>, line: &[u8]) -> Result<(), AllocError> {
    let mut left = line;
    for _ in 0..line.len() {
        if left.len() < 128 {
            break;
        }
        log.extend_from_slice(b"keys 1 ")?;
        log.extend_from_slice(first_bytes(left, 100))?;
        log.extend_from_slice(b"\nrounds 1\n")?;
        left = rest_after(left, 100);
    }
    log.extend_from_slice(b"type 1 ")?;
    log.extend_from_slice(left)?;
    log.extend_from_slice(b"\nrounds 20\n")?;
    Ok(())
}

// A log that types each line that is shown after a prompt.
fn typed(alloc: Global, shown: &[u8]) -> Result<Vec<u8>, AllocError> {
    let mut log = Vec::new(alloc);
    let mut left = shown;
    for _ in 0..shown.len() {
        let (line, rest) = cut(left, b'\n');
        if let [b':', _, ..] = line {
            type_line(&mut log, rest_after(line, 1))?;
        }
        left = rest.unwrap_or(b"");
    }
    Ok(log)
}

// The log of a row.
fn log_of(alloc: Global, row: &Row) -> Result<Vec<u8>, AllocError> {
    match row.kept {
        [(_, shown), ..] if row.log.is_empty() => typed(alloc, shown),
        _ => Vec::from_slice(alloc, row.log),
    }
}

// Whether these bytes stand in an image at a place, and 00 after them up to a length.
fn stand_at(image: &[u8], place: usize, length: usize, bytes: &[u8]) -> bool {
    let there = first_bytes(rest_after(image, place), length);
    let rest = rest_after(there, bytes.len());
    there.len() == length && there.starts_with(bytes) && rest.iter().all(|byte| *byte == 0)
}

#[test]
fn worked_examples_write_what_they_say(rt: HostRuntime) -> Result<(), Fail> {
    let alloc = rt.alloc();
    for (number, row) in ROWS.iter().enumerate() {
        let mut shelf = shelf_with(alloc, &log_of(alloc, row)?, 0)?;
        let mut sink = MemSink::new(alloc, Vec::new(alloc));
        let status = run(alloc, row.words, &mut shelf, &mut sink)?;
        assert!(rt; status.number() == 0, "row {number}");
        for (name, bytes) in row.kept {
            assert!(rt; shelf.file(name) == Some(*bytes), "row {number}");
        }
        for (place, length, bytes) in row.disk {
            let image = shelf.file(b"out.D11").unwrap_or(b"");
            assert!(rt; stand_at(image, *place, *length, bytes), "row {number}");
        }
        assert!(rt; sink.written().ends_with(row.ends), "row {number}");
    }
    Ok(())
}
