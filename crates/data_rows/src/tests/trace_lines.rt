//! Lines of traces and runs.

use sched_base::{Act, Answer, Bucket, Place, Step};
use std::test::Fail;
use trace_text::{
    Given, LineFault, LineOut, Page, Power, ProgramLine, RunLine, piece, read_numeral,
    read_program, read_run, read_step, write_answer, write_bare, write_step,
};

const MAKE: Step = Step {
    moment: 1_099_511_627_775,
    actor: 15,
    act: Act::Make {
        name: 4_294_967_295,
        group: 63,
        bucket: Bucket::Ini,
        base: 127,
        bound: Some(15),
    },
};

/// A step without an answer.
fn asked(moment: u64, actor: u8, act: Act) -> Result<Given, LineFault> {
    let step = Step { moment, actor, act };
    Ok(Given { step, answer: None })
}

/// A step of the first actor at the start, with its answer.
fn answered(act: Act, answer: Answer) -> Result<Given, LineFault> {
    let step = Step {
        moment: 0,
        actor: 0,
        act,
    };
    Ok(Given {
        step,
        answer: Some(answer),
    })
}

#[test]
fn lines_of_a_trace(rt: HostRuntime) {
    let make = Act::Make {
        name: 1,
        group: 0,
        bucket: Bucket::Fg,
        base: 127,
        bound: None,
    };
    let cases = [
        (
            "1099511627775 0 select",
            asked(1_099_511_627_775, 0, Act::Select),
        ),
        ("1099511627776 0 select", Err(LineFault::Range)),
        ("18446744073709551616 0 select", Err(LineFault::Range)),
        ("01 0 select", Err(LineFault::Number)),
        ("", Err(LineFault::Number)),
        ("0 15 select", asked(0, 15, Act::Select)),
        ("0 16 select", Err(LineFault::Range)),
        ("0 0", Err(LineFault::Word)),
        ("0 0 jump", Err(LineFault::Word)),
        ("0 0 selects", Err(LineFault::Word)),
        ("0x 0 select", Err(LineFault::Number)),
        ("0 0 on 15", asked(0, 0, Act::On { cluster: 15 })),
        ("0 0 select ", Err(LineFault::Word)),
        ("0 0 make 1 0 FG 127 -", asked(0, 0, make)),
        (
            "1099511627775 15 make 4294967295 63 IN 127 15",
            asked(MAKE.moment, MAKE.actor, MAKE.act),
        ),
        ("0 0 make 1 0 FG 128 x", Err(LineFault::Range)),
        ("0 0 make 1 0 FG 127 x", Err(LineFault::Number)),
        (
            "0 1 enter 15 head",
            asked(
                0,
                1,
                Act::Enter {
                    cluster: 15,
                    head: true,
                },
            ),
        ),
        ("0 0 select = -", answered(Act::Select, Answer::Empty)),
        ("0 0 select = got 1", answered(Act::Select, Answer::Got(1))),
        ("0 0 select = got 1 ", Err(LineFault::Word)),
        (
            "0 0 pull 1 = no NotQueued q 15",
            answered(Act::Pull { name: 1 }, Answer::NotQueued(Place::Queue(15))),
        ),
        ("0 0 pull 1 = no NotQueued q 16", Err(LineFault::Range)),
        (
            "0 0 ran 9 = work 18446744073709551615",
            answered(Act::Ran { us: 9 }, Answer::Work(u64::MAX)),
        ),
        (
            "0 0 ran 9 = work 18446744073709551616",
            Err(LineFault::Range),
        ),
    ];
    for (line, read) in cases.iter() {
        assert_eq!(rt; read_step(line.as_bytes()), *read, "{line}");
    }
}

/// What a thread line is read as, with its spans and their number; or its fault.
type Thread = Result<(u32, u8, Bucket, u8, Option<u8>, [u32; 15], u8), LineFault>;

/// The parts of a program.
fn parts(read: Result<ProgramLine, LineFault>) -> Thread {
    let p = read?;
    let spans = p.spans;
    Ok((p.name, p.group, p.bucket, p.base, p.bound, spans, p.count))
}

#[test]
fn thread_lines(rt: HostRuntime) {
    let fg = |spans, count| Ok((1, 0, Bucket::Fg, 31, None, spans, count));
    let mut three = [0; 15];
    three[0] = 5000;
    three[1] = 2000;
    three[2] = 12_000;
    let cases: [(&str, Thread); 11] = [
        ("thread 1 0 FG 31 - 5000 2000 12000", fg(three, 3)),
        (
            "thread 1 0 FG 31 - 1 1 1 1 1 1 1 1 1 1 1 1 1 1 1",
            fg([1; 15], 15),
        ),
        (
            "thread 4294967295 63 BG 127 15 10000000 10000000 10000000 10000000 10000000 10000000 10000000 10000000 10000000 10000000 10000000 10000000 10000000 10000000 10000000",
            Ok((
                u32::MAX,
                63,
                Bucket::Bg,
                127,
                Some(15),
                [10_000_000; 15],
                15,
            )),
        ),
        (
            "thread 1 0 FG 31 - 1 1 1 1 1 1 1 1 1 1 1 1 1 1 1 1",
            Err(LineFault::Word),
        ),
        ("thread 1 0 FG 31 - 5000 2000", Err(LineFault::Word)),
        ("thread 1 0 FG 31 - 0", Err(LineFault::Range)),
        ("thread 1 0 FG 31 - 10000001", Err(LineFault::Range)),
        ("thread 4294967296 0 FG 31 - 1", Err(LineFault::Range)),
        ("thread 01 0 FG 31 - 1", Err(LineFault::Number)),
        ("0 0 select", Err(LineFault::Word)),
        ("", Err(LineFault::Word)),
    ];
    for (line, read) in cases.iter() {
        assert_eq!(rt; parts(read_program(line.as_bytes())), *read, "{line}");
        let run = match read_run(line.as_bytes()) {
            Ok(RunLine::Thread(program)) => parts(Ok(program)),
            Ok(RunLine::Power(_)) => Err(LineFault::Unfinished),
            Err(fault) => Err(fault),
        };
        assert_eq!(rt; run, *read, "{line}");
    }
}

#[test]
fn off_and_on_lines(rt: HostRuntime) {
    let power = |cluster, on, turn| Ok(Power { cluster, on, turn });
    let cases = [
        ("off 1 4999", power(1, false, 4999)),
        ("on 15 0", power(15, true, 0)),
        ("off 0 5000", Err(LineFault::Range)),
        ("on 0 1 2", Err(LineFault::Word)),
        ("off 16 5000", Err(LineFault::Range)),
        ("off 01 0", Err(LineFault::Number)),
        ("off 0", Err(LineFault::Word)),
    ];
    for (line, read) in cases.iter() {
        let run = match read_run(line.as_bytes()) {
            Ok(RunLine::Power(power)) => Ok(power),
            Ok(RunLine::Thread(_)) => Err(LineFault::Unfinished),
            Err(fault) => Err(fault),
        };
        assert_eq!(rt; run, *read, "{line}");
    }
    assert_eq!(rt; read_program(b"off 1 0").err(), Some(LineFault::Word));
}

#[test]
fn lines_at_the_limit(rt: HostRuntime) {
    let (most, more) = ([b'1'; 256], [b'1'; 257]);
    assert_eq!(rt; read_step(&most), Err(LineFault::Range));
    assert_eq!(rt; read_step(&more), Err(LineFault::Long));
    assert_eq!(rt; read_run(&most).err(), Some(LineFault::Word));
    assert_eq!(rt; read_run(&more).err(), Some(LineFault::Long));
    assert_eq!(rt; read_program(&most).err(), Some(LineFault::Word));
    assert_eq!(rt; read_program(&more).err(), Some(LineFault::Long));
}

#[test]
fn pieces_and_numerals(rt: HostRuntime) {
    assert_eq!(rt; piece(b"a  b", 1), Some(b"".as_slice()));
    assert_eq!(rt; piece(b"a  b", 2), Some(b"b".as_slice()));
    assert_eq!(rt; piece(b"a  b", 3), None);
    assert_eq!(rt; read_numeral(b"249", 249), Ok(249));
    assert_eq!(rt; read_numeral(b"250", 249), Err(LineFault::Range));
    assert_eq!(rt; read_numeral(b"0250", 249), Err(LineFault::Number));
    assert_eq!(rt;
        read_numeral(b"18446744073709551615", u64::MAX),
        Ok(u64::MAX)
    );
}

#[test]
fn written_lines(rt: HostRuntime) {
    let mut out = LineOut::new();
    write_step(&mut out, &MAKE);
    assert_eq!(rt;
        out.bytes(),
        b"1099511627775 15 make 4294967295 63 IN 127 15".as_slice()
    );
    write_answer(&mut out, &Answer::Work(u64::MAX));
    let text = b"1099511627775 15 make 4294967295 63 IN 127 15 = work 18446744073709551615\n";
    assert_eq!(rt; out.bytes(), text.as_slice());
    write_bare(&mut out, &Answer::LookFirst(3));
    assert_eq!(rt; out.bytes(), b"no LookFirst 3".as_slice());
}

#[test]
fn gathered_lines(rt: HostRuntime) -> Result<(), Fail> {
    let mut page = Page::new(rt.alloc())?;
    page.write_bytes(b"setup\n");
    page.write_line(&MAKE, &Answer::Work(u64::MAX));
    let text =
        b"setup\n1099511627775 15 make 4294967295 63 IN 127 15 = work 18446744073709551615\n";
    assert_eq!(rt; page.bytes(), text.as_slice());
    assert_eq!(rt; page.room(), 16_384 - text.len());
    page.clear();
    assert!(rt; page.is_empty());
    Ok(())
}

#[test]
fn faults_have_their_texts(rt: HostRuntime) -> Result<(), Fail> {
    let cases = [
        (LineFault::Word, "word"),
        (LineFault::Number, "number"),
        (LineFault::Range, "range"),
        (LineFault::Long, "long"),
        (LineFault::Unfinished, "unfinished"),
    ];
    for (fault, text) in cases {
        assert_eq!(rt; fault.to_string(rt.alloc())?.as_str(), text);
    }
    Ok(())
}
