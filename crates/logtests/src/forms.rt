use loglines::command::{Command, Mark, YardstickLetter};
use loglines::fault::LogFault;
use loglines::read::{Reading, read, read_line};
use std::process::Abort;

fn opening(units: u64) -> Reading {
    Ok(Command::Open { units })
}

fn number(a: u64, b: u64, d: u64) -> Reading {
    Ok(Command::Pair {
        a,
        b,
        mark: Mark::Number(d),
    })
}

fn ranking(by: YardstickLetter, number: u64) -> Reading {
    Ok(Command::Rank { by, number })
}

// The line has no form while a sheet is open, and none while no sheet is.
fn formless(rt: &impl Abort, line: &[u8]) {
    assert_eq!(rt; read(line, true), Err(LogFault::Form));
    assert_eq!(rt; read(line, false), Err(LogFault::Form));
}

#[test]
fn number_words(rt: HostRuntime) {
    assert_eq!(rt; read(b"U 0", false), opening(0));
    assert_eq!(rt; read(b"U 7", false), opening(7));
    assert_eq!(rt; read(b"U 10", false), opening(10));
    assert_eq!(rt;
        read(b"U 1000000000000000000", false),
        opening(1_000_000_000_000_000_000)
    );
    assert_eq!(rt;
        read(b"U 9999999999999999999", false),
        opening(9_999_999_999_999_999_999)
    );
}

#[test]
fn no_number_words(rt: HostRuntime) {
    formless(&rt, b"U 00");
    formless(&rt, b"U 07");
    formless(&rt, b"U 10000000000000000000");
    formless(&rt, b"U 01234567890123456789");
    formless(&rt, b"U ");
    formless(&rt, b"U x");
    formless(&rt, b"U 1x");
    formless(&rt, b"U +1");
    formless(&rt, b"U -");
}

#[test]
fn every_form(rt: HostRuntime) {
    assert_eq!(rt; read(b"U 11", false), opening(11));
    assert_eq!(rt; read(b"P 1 2 250", true), number(1, 2, 250));
    assert_eq!(rt; read(b"P 2 1 0", true), number(2, 1, 0));
    assert_eq!(rt;
        read(b"P 1 2 -", true),
        Ok(Command::Pair {
            a: 1,
            b: 2,
            mark: Mark::Gap,
        })
    );
    assert_eq!(rt; read(b"T 3 1", true), Ok(Command::Tie { a: 3, b: 1 }));
    assert_eq!(rt; read(b"F 3 1", true), Ok(Command::Untie { a: 3, b: 1 }));
    assert_eq!(rt; read(b"R S 1", true), ranking(YardstickLetter::Spread, 1));
    assert_eq!(rt;
        read(b"R G 20", true),
        ranking(YardstickLetter::Gradient, 20)
    );
    assert_eq!(rt; read(b"R T 0", true), ranking(YardstickLetter::Target, 0));
}

#[test]
fn no_form(rt: HostRuntime) {
    formless(&rt, b"");
    formless(&rt, b" ");
    formless(&rt, b"P");
    formless(&rt, b"P 1 2");
    formless(&rt, b"P 1 2 3 4");
    formless(&rt, b"P  1 2 3");
    formless(&rt, b"P 1 2 3 ");
    formless(&rt, b" P 1 2 3");
    formless(&rt, b"P\t1 2 3");
    formless(&rt, b"p 1 2 3");
    formless(&rt, b"P 1 - 3");
    formless(&rt, b"P 1 2 --");
    formless(&rt, b"T 1");
    formless(&rt, b"F 1 2 3");
    formless(&rt, b"R s 1");
    formless(&rt, b"R X 1");
    formless(&rt, b"S 1");
}

#[test]
fn longest_line(rt: HostRuntime) {
    let most = 9_999_999_999_999_999_999;
    assert_eq!(rt;
        read(
            b"P 9999999999999999999 9999999999999999999 9999999999999999999",
            true,
        ),
        number(most, most, most)
    );
    formless(
        &rt,
        b"P 9999999999999999999 9999999999999999999 9999999999999999999 123",
    );
    formless(
        &rt,
        b"P 9999999999999999999 9999999999999999999 9999999999999999999 12",
    );
}

#[test]
fn states(rt: HostRuntime) {
    assert_eq!(rt; read(b"U 3", true), Err(LogFault::Form));
    assert_eq!(rt; read(b"P 1 2 3", false), Err(LogFault::Form));
    assert_eq!(rt; read(b"P 1 2 -", false), Err(LogFault::Form));
    assert_eq!(rt; read(b"T 1 2", false), Err(LogFault::Form));
    assert_eq!(rt; read(b"F 1 2", false), Err(LogFault::Form));
    assert_eq!(rt; read(b"R S 1", false), Err(LogFault::Form));
}

#[test]
fn sizes(rt: HostRuntime) {
    assert_eq!(rt; read_line(b"U 0", false), Err(LogFault::Size));
    assert_eq!(rt; read_line(b"U 1", false), Err(LogFault::Size));
    assert_eq!(rt; read_line(b"U 2", false), opening(2));
    assert_eq!(rt; read_line(b"U 11", false), opening(11));
    assert_eq!(rt; read_line(b"U 12", false), Err(LogFault::Size));
    assert_eq!(rt; read_line(b"U 12", true), Err(LogFault::Form));
    assert_eq!(rt; read_line(b"P 1 99 3", true), number(1, 99, 3));
}

#[test]
fn refusal_numbers(rt: HostRuntime) {
    assert_eq!(rt; LogFault::Size.number(), 1);
    assert_eq!(rt; LogFault::Form.number(), 11);
    assert_eq!(rt; LogFault::Long.number(), 11);
}
