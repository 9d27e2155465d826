// Examples of lines and traces, and of the refusals with their places.
use crate::line::{LineTokens, line_at};
use crate::lines::Lines;
use crate::refused::TraceRefusal;
use crate::whole::whole_trace;
use std::test::Fail;

// The number of the cause, and the place: the numbers are the format that users see.
fn number_and_place(refused: TraceRefusal) -> (u8, usize) {
    (refused.cause.number(), refused.place)
}

// How many lines a trace has, or the number and the place with which it is refused.
fn verdict(trace: &[u8]) -> Result<usize, (u8, usize)> {
    whole_trace(trace)
        .map(|counts| counts.lines)
        .map_err(number_and_place)
}

#[test]
fn whole_traces(rt: HostRuntime) {
    let cases: [(&[u8], Result<usize, (u8, usize)>); 28] = [
        (b"", Ok(0)),
        (
            b"job 0 1 a\nlost 0\nlost 1\njob 999999 10000 a-z-09-z\n",
            Ok(4),
        ),
        // neither form, or no LF
        (b"\n", Err((14, 0))),
        (b"job 01 1 a\n", Err((14, 0))),
        (b"job 1000000 1 a\n", Err((14, 0))),
        (b"job 0  1 a\n", Err((14, 0))),
        (b"job 0 1 \n", Err((14, 0))),
        (b"job 0 1 a b\n", Err((14, 0))),
        (b"job\t0 1 a\n", Err((14, 0))),
        (b"lost 0\r\n", Err((14, 0))),
        (b"lost -1\n", Err((14, 0))),
        (b"\xeflost 0\n", Err((14, 0))),
        (b"lost 0", Err((14, 0))),
        (b"lost 0\nlost 1", Err((14, 7))),
        // what a line says: its size, then its name
        (b"job 0 0 a\n", Err((1, 0))),
        (b"job 0 10001 a\n", Err((1, 0))),
        (b"job 0 0 Moon\n", Err((1, 0))),
        (b"job 0 1 Moon\n", Err((2, 0))),
        (b"job 0 1 abcdefghi\n", Err((2, 0))),
        (b"job 0 1 a\r\n", Err((2, 0))),
        (b"job 0 1 a\0\n", Err((2, 0))),
        (b"job 0 1 \xff\n", Err((2, 0))),
        // the line before
        (b"lost 3\nlost 3\n", Err((15, 7))),
        (b"lost 3\njob 3 1 a\n", Err((15, 7))),
        (b"job 3 1 a\njob 2 1 a\n", Err((15, 10))),
        (b"job 3 1 a\njob 2 1 A\n", Err((2, 10))),
        (b"job 3 1 a\njob 2 0 a\n", Err((1, 10))),
        (b"job 3 1 a\njob 3 1 a\nlost 3\n", Ok(3)),
    ];
    for (trace, expected) in cases {
        assert_eq!(rt; verdict(trace), expected);
    }
}

// 65,536 bytes in 5,462 lines, and one byte more; 1,024 jobs, and one job more.
#[test]
fn limits(rt: HostRuntime) -> Result<(), Fail> {
    let mut text = format!(in rt.alloc(); "lost 10\nlost 11\n")?;
    for tick in 100_000..105_460u32 {
        writeln!(text, "lost {tick}")?;
    }
    assert_eq!(rt; text.len(), 65_536);
    assert_eq!(rt; verdict(text.as_bytes()), Ok(5462));
    text.push('\n')?;
    assert_eq!(rt; verdict(text.as_bytes()), Err((13, 0)));
    let mut jobs = Vec::new(rt.alloc());
    for _ in 0..1024 {
        jobs.extend_from_slice(b"job 0 1 a\n")?;
    }
    assert_eq!(rt; verdict(&jobs), Ok(1024));
    jobs.extend_from_slice(b"job 0 1 a\n")?;
    assert_eq!(rt; verdict(&jobs), Err((4, 10_240)));
    Ok(())
}

// The place behind the line at a place, or the number and the place with which that line is refused.
fn at(trace: &[u8], place: usize) -> Result<usize, (u8, usize)> {
    line_at(trace, place)
        .map(|(_, next)| next)
        .map_err(number_and_place)
}

#[test]
fn lines_at_places(rt: HostRuntime) -> Result<(), Fail> {
    let trace = b"job 0 42 moon\nlost 1\nxlost 7\njob 9 0 a\n";
    for (place, expected) in [
        (0, Ok(14)),
        (14, Ok(21)),
        (21, Err((14, 21))),
        (22, Ok(29)),
        (29, Err((1, 29))),
        (4, Err((14, 4))),
        (39, Err((14, 39))),
        (1000, Err((14, 1000))),
    ] {
        assert_eq!(rt; at(trace, place), expected);
    }
    let Ok(
        (
            LineTokens::Job {
                keyword,
                tick,
                size,
                name,
            },
            _,
        ),
    ) = line_at(trace, 0)
    else {
        return Err(Fail::new("no job"));
    };
    assert_eq!(rt;
        (keyword.place, tick.place, size.place, name.place),
        (0, 4, 6, 9)
    );
    assert_eq!(rt; (tick.value(), size.value()), (0, 42));
    assert_eq!(rt; keyword.bytes(), b"job".as_slice());
    assert_eq!(rt; name.bytes(), b"moon".as_slice());
    Ok(())
}

// The lines of the same trace up to the first that is refused, each by its place.
#[test]
fn lines_in_order(rt: HostRuntime) -> Result<(), Fail> {
    let trace = b"job 0 42 moon\nlost 1\nxlost 7\njob 9 0 a\n";
    let mut found = Vec::new(rt.alloc());
    for line in Lines::new(trace) {
        found.push(line.map(|(_, place)| place).map_err(number_and_place))?;
    }
    assert_eq!(rt; found.as_slice(), [Ok(0), Ok(14), Err((14, 21))].as_slice());
    Ok(())
}
