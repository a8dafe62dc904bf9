use answers::line::{write_ranked, write_refused, write_scaled};
use answers::total::Total;
use std::process::Abort;

// The buffer begins with the text, whose length was answered, and its other bytes are still 7.
fn holds(rt: &impl Abort, buffer: &[u8], answered: Option<usize>, text: &[u8]) {
    assert_eq!(rt; answered, Some(text.len()));
    let others = buffer.strip_prefix(text);
    assert!(rt; others.is_some_and(|bytes| bytes.iter().all(|byte| *byte == 7)));
}

#[test]
fn rankings(rt: HostRuntime) {
    let mut buffer = [7; 512];
    let end = write_ranked(&mut buffer, &[1, 2, 3], Total::Two(2, 8), 2);
    holds(&rt, &buffer, end, b"order 1 2 3 total 2,8 of 2\n");
    let mut buffer = [7; 512];
    let end = write_ranked(&mut buffer, &[10, 11], Total::One(-206), 0);
    holds(&rt, &buffer, end, b"order 10 11 total -206 of 0\n");
}

#[test]
fn greatest_and_least(rt: HostRuntime) {
    let mut buffer = [7; 512];
    let end = write_ranked(
        &mut buffer,
        &[255],
        Total::Two(i64::MIN, i64::MAX),
        u64::MAX,
    );
    holds(
        &rt,
        &buffer,
        end,
        b"order 255 total -9223372036854775808,9223372036854775807 of 18446744073709551615\n",
    );
}

#[test]
fn scalings(rt: HostRuntime) {
    let mut buffer = [7; 512];
    let end = write_scaled(
        &mut buffer,
        &[1, 2, 3],
        Total::One(206),
        2,
        &[-9, -2, 11],
        1,
    );
    holds(
        &rt,
        &buffer,
        end,
        b"order 1 2 3 total 206 of 2 at -9 -2 11 loss 1\n",
    );
    let mut buffer = [7; 512];
    let end = write_scaled(&mut buffer, &[], Total::Two(0, -1), 1, &[], i64::MIN);
    holds(
        &rt,
        &buffer,
        end,
        b"order total 0,-1 of 1 at loss -9223372036854775808\n",
    );
}

#[test]
fn refusals(rt: HostRuntime) {
    let mut buffer = [7; 512];
    let end = write_refused(&mut buffer, 65535, 11);
    holds(&rt, &buffer, end, b"line 65535 refused 11\n");
    let mut buffer = [7; 512];
    let end = write_refused(&mut buffer, 0, 1);
    holds(&rt, &buffer, end, b"line 0 refused 1\n");
}
