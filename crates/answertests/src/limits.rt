use answers::line::{write_ranked, write_refused, write_scaled};
use answers::total::Total;
use std::process::Abort;

// Nothing was answered, and every byte of the buffer is still 7.
fn untouched(rt: &impl Abort, buffer: &[u8], answered: Option<usize>) {
    assert_eq!(rt; answered, None);
    assert!(rt; buffer.iter().all(|byte| *byte == 7));
}

#[test]
fn buffers_of_511(rt: HostRuntime) {
    let mut buffer = [7; 511];
    let end = write_ranked(&mut buffer, &[1, 2], Total::One(0), 1);
    untouched(&rt, &buffer, end);
    let end = write_scaled(&mut buffer, &[1, 2], Total::One(0), 1, &[-1, 1], 0);
    untouched(&rt, &buffer, end);
    let end = write_refused(&mut buffer, 1, 1);
    untouched(&rt, &buffer, end);
}

#[test]
fn eleven_and_twelve(rt: HostRuntime) {
    let mut buffer = [7; 512];
    let end = write_ranked(&mut buffer, &[1; 12], Total::One(0), 1);
    untouched(&rt, &buffer, end);
    let end = write_scaled(&mut buffer, &[1; 12], Total::One(0), 1, &[0], 0);
    untouched(&rt, &buffer, end);
    let end = write_scaled(&mut buffer, &[1], Total::One(0), 1, &[0; 12], 0);
    untouched(&rt, &buffer, end);
    let end = write_ranked(&mut buffer, &[1; 11], Total::One(0), 1);
    assert_eq!(rt; end, Some(41));
}

// The longest line: 382 of the 512 bytes.
#[test]
fn longest_line(rt: HostRuntime) {
    let least = i64::MIN;
    let mut buffer = [7; 512];
    let end = write_scaled(
        &mut buffer,
        &[255; 11],
        Total::Two(least, least),
        u64::MAX,
        &[least; 11],
        least,
    );
    assert_eq!(rt; end, Some(382));
}
