use loglines::fault::{LogError, LogFault};
use loglines::log::{lines, read_log};
use logreport::count::Kind;
use logreport::report::report;
use std::alloc::Global;
use std::process::Abort;
use std::test::Fail;

// The input is cut into as many lines as are wanted, the last of which is `last`.
fn cut(
    rt: &impl Abort,
    heap: Global,
    input: &[u8],
    wanted: usize,
    last: &[u8],
) -> Result<(), Fail> {
    let found = lines(heap, input)?;
    assert_eq!(rt; found.len(), wanted);
    if let Some(end) = found.as_slice().last() {
        assert_eq!(rt; *end, last);
    }
    Ok(())
}

#[test]
fn line_feeds(rt: HostRuntime) -> Result<(), Fail> {
    let heap = rt.alloc();
    cut(&rt, heap, b"", 0, b"")?;
    cut(&rt, heap, b"\n", 1, b"")?;
    cut(&rt, heap, b"U 3", 1, b"U 3")?;
    cut(&rt, heap, b"U 3\n", 1, b"U 3")?;
    cut(&rt, heap, b"U 3\n\n", 2, b"")?;
    cut(&rt, heap, b"U 3\nT 1 2", 2, b"T 1 2")?;
    cut(&rt, heap, b"\n\nU 3\r\n", 3, b"U 3\r")
}

#[test]
fn log_limit(rt: HostRuntime) -> Result<(), Fail> {
    let heap = rt.alloc();
    let most = vec![in heap; b'\n'; 32768]?;
    assert_eq!(rt; lines(heap, most.as_slice())?.len(), 32768);
    let more = vec![in heap; b'\n'; 32769]?;
    let refused = lines(heap, more.as_slice()).err();
    assert_eq!(rt; refused, Some(LogError::Refused(LogFault::Long)));
    let text = report(heap, more.as_slice())?;
    assert_eq!(rt; text.as_str(), "line 0 refused 11\n");
    Ok(())
}

#[test]
fn state_from_line_to_line(rt: HostRuntime) -> Result<(), Fail> {
    let readings = read_log(rt.alloc(), b"T 1 2\nU 1\nT 1 2\nU 3\nU 3\nT 1 2\nx")?;
    assert_eq!(rt; readings.len(), 7);
    assert_eq!(rt; readings[0], Err(LogFault::Form));
    assert_eq!(rt; readings[1], Err(LogFault::Size));
    assert_eq!(rt; readings[2], Err(LogFault::Form));
    assert!(rt; readings[3].is_ok());
    assert_eq!(rt; readings[4], Err(LogFault::Form));
    assert!(rt; readings[5].is_ok());
    assert_eq!(rt; readings[6], Err(LogFault::Form));
    Ok(())
}

#[test]
fn small_report(rt: HostRuntime) -> Result<(), Fail> {
    let text = report(rt.alloc(), b"U 2\nP 1 2 -\nq")?;
    let wanted =
        "line 1 opens a sheet of 2 units\nline 2 makes the pair 1 2 a gap\nline 3 refused 11\nlines read 3\nsheets opened 1\nmarks written 0\ngaps 1\nties 0\nties taken away 0\nrankings asked 0\nrefusals 1\n";
    assert_eq!(rt; text.as_str(), wanted);
    Ok(())
}

#[test]
fn shown(rt: HostRuntime) -> Result<(), Fail> {
    let heap = rt.alloc();
    let fault = format!(in heap; "{}", LogFault::Form)?;
    assert_eq!(rt; fault.as_str(), "the line has no form in this state");
    let error = format!(in heap; "{}", LogError::Refused(LogFault::Size))?;
    assert_eq!(rt;
        error.as_str(),
        "refused: a log opens a sheet of 2 to 11 units"
    );
    let kind = format!(in heap; "{}", Kind::Untie)?;
    assert_eq!(rt; kind.as_str(), "ties taken away");
    Ok(())
}
